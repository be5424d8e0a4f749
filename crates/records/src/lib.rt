// The fields of a record of vectors: numbers, bytes and lists behind their counts.
#![tactic(auto)]

ghost use Rattle.std.specs.Prelude.{◌≡◌, ◌<◌, length, get_or};
ghost use Rattle.laws.specs.Index.{tab};
ghost use Rattle.test_rules.specs.Fields.{past, pair_at, number_at, part, lent, lowered, value_at, size_at};

// The position n further on, or the end.
pub fn past(length: usize, at: usize, n: usize) -> usize
    ensures { result ≡ past length at n }
{
    if at <= length && n <= length - at {
        return at + n;
    }
    length
}

// A byte, or 0 past the end.
pub fn byte_at(bytes: &[u8], at: usize) -> usize
    ensures { (result ≡ get_or bytes.now at 0) × (result < 256) }
{
    if at < bytes.len() {
        return usize::from(bytes[at]);
    }
    0
}

// Two bytes, the low one first.
pub fn pair_at(bytes: &[u8], at: usize) -> usize
    ensures { (result ≡ pair_at bytes.now at) × (result < 65536) }
{
    let next = past(bytes.len(), at, 1);
    byte_at(bytes, at) + 256 * byte_at(bytes, next)
}

// Four bytes, the low ones first.
pub fn number_at(bytes: &[u8], at: usize) -> usize
    ensures { (result ≡ number_at bytes.now at) × (result < 4294967296) }
{
    let next = past(bytes.len(), at, 2);
    pair_at(bytes, at) + 65536 * pair_at(bytes, next)
}

// n bytes from a position, or none where there are not so many.
fn part<'a>(bytes: &'a [u8], at: usize, n: usize) -> &'a [u8]
    ensures { result.now ≡ part bytes.now at n }
{
    if bytes.len() < at {
        return &bytes[0..0];
    }
    if bytes.len() - at < n {
        return &bytes[0..0];
    }
    let end = at + n;
    &bytes[at..end]
}

// The bytes that stand behind their count.
pub fn lent<'a>(bytes: &'a [u8], at: usize) -> &'a [u8]
    ensures { result.now ≡ lent bytes.now at }
{
    let n = number_at(bytes, at);
    let start = past(bytes.len(), at, 4);
    part(bytes, start, n)
}

// A number that is stored with 2^31 added.
fn lowered(w: usize) -> i32
    requires { w < 4294967296 }
    ensures { result ≡ lowered w }
{
    let v = (w as i64) - 2147483648;
    v as i32
}

// As many numbers of four bytes as the list has.
pub fn values_at(bytes: &[u8], at: usize, list: &mut [i32])
    ensures { list.new ≡ tab (length list.old) (value_at bytes.now at) }
{
    let mut next = at;
    for value in list.iter_mut() {
        *value = lowered(number_at(bytes, next));
        next = past(bytes.len(), next, 4);
    }
}

// As many numbers of two bytes as the list has.
pub fn sizes_at(bytes: &[u8], at: usize, list: &mut [u16])
    ensures { list.new ≡ tab (length list.old) (size_at bytes.now at) }
{
    let mut next = at;
    for size in list.iter_mut() {
        *size = pair_at(bytes, next) as u16;
        next = past(bytes.len(), next, 2);
    }
}
