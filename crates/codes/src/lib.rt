// Code tables of T.81: validity, reading a code, the numbers of their lengths, a code looked up by them (docs/RULES.md, K1, K2, K4 to K8).
#![tactic(auto)]

ghost use Rattle.std.specs.Prelude.{◌≡◌, true, ◌+◌, ◌≤◌, ◌<◌, length, drop, IfErr};
ghost use Rattle.bits.specs.Code.{bits_in, read_by};
ghost use Rattle.bit_rules.specs.Table.{table, code_count, kraft, holds, distinct, good_table};
ghost use Rattle.bit_rules.specs.Read.{take_code};
ghost use Rattle.bit_rules.specs.Lookup.{largest_of, limit_of, lengths_from};
ghost use Rattle.codes.specs.Code.{numbers_of, Prepared};

use bits::{BitReader, Stop};

// The sum of 16 counts.
fn code_count(counts: &[u8]) -> usize
    requires { length counts.now ≡ 16 }
    ensures { result ≡ code_count counts.now }
{
    let mut sum = 0;
    for &n in counts {
        sum += usize::from(n);
    }
    sum
}

// "the sum over lengths l of count times 2^(16-l)"
fn kraft_of(counts: &[u8]) -> usize
    requires { length counts.now ≡ 16 }
    ensures { result ≡ kraft counts.now }
{
    let mut sum = 0;
    let mut weight = 32768;
    for &n in counts {
        sum += usize::from(n) * weight;
        weight /= 2;
    }
    sum
}

// Whether a value stands among the values from an index on.
fn holds_from(values: &[u8], from: usize, v: u8) -> bool
    ensures { result ≡ holds v (drop from values.now) }
{
    from < values.len() && values[from..].contains(&v)
}

fn all_distinct(values: &[u8]) -> bool
    ensures { result ≡ distinct values.now }
{
    for (i, &v) in values.iter().enumerate() {
        if holds_from(values, i + 1, v) {
            return false;
        }
    }
    true
}

// Whether a table is one. "Anything else, lengths too, is 10".
pub fn good_table(counts: &[u8], values: &[u8]) -> bool
    ensures { result ≡ good_table (table counts.now values.now) }
{
    if counts.len() != 16 {
        return false;
    }
    if values.len() < 1 {
        return false;
    }
    if 256 < values.len() {
        return false;
    }
    if code_count(counts) != values.len() {
        return false;
    }
    if 65535 < kraft_of(counts) {
        return false;
    }
    all_distinct(values)
}

// The value of the code that the next bits make.
pub fn take_code<'a>(counts: &[u8], values: &[u8], r: &mut BitReader<'a>) -> Result<u8, Stop>
    requires { good_table (table counts.now values.now) ≡ true }
    ensures taken { read_by r.new result ≡ take_code (table counts.now values.now) (bits_in r.old) }
    ensures kept { IfErr result (λ stop. bits_in r.new ≡ bits_in r.old) }
{
    let mut here = *r;
    let mut over = 0;
    let mut place = 0;
    for &count in counts {
        let b = here.next_bit()?;
        over = 2 * over + (b as usize);
        let n = usize::from(count);
        if over < n {
            *r = here;
            return Ok(values[place + over]);
        }
        over -= n;
        place += n;
    }
    Err(here.stop(14)) // sixteen bits and no code
}

// One above the largest of n codes, which begin at the smallest; 0 where there are none.
fn limit(smallest: usize, n: usize) -> u16
    requires { smallest + n ≤ 65535 }
    ensures { result ≡ limit_of (largest_of smallest n) }
{
    if n == 0 {
        return 0;
    }
    (smallest + n) as u16
}

// "the smallest and largest code of each length and the first value's position", made once a call; a largest code is kept plus one.
pub fn put_numbers(counts: &[u8], numbers: &mut [u16])
    requires numbers_len { length numbers.old ≡ 48 }
    requires counts_len { (length counts.now ≡ 16) × (kraft counts.now ≤ 65535) × (code_count counts.now ≤ 256) }
    ensures { numbers.new ≡ numbers_of (lengths_from 0 0 counts.now) }
{
    let mut code = 0;
    let mut position = 0;
    for (l, &count) in counts.iter().enumerate() {
        let n = usize::from(count);
        numbers[3 * l] = code as u16;
        numbers[3 * l + 1] = limit(code, n);
        numbers[3 * l + 2] = position as u16;
        code = 2 * (code + n);
        position += n;
    }
}

// The same by the numbers of the lengths: bits are taken while they are above the largest code of their length. (The counts stand in the promise alone.)
pub fn look_up<'a>(
    counts: &[u8],
    values: &[u8],
    numbers: &[u16; 48],
    r: &mut BitReader<'a>,
) -> Result<u8, Stop>
    requires { Prepared (table counts.now values.now) numbers.now }
    ensures taken { read_by r.new result ≡ take_code (table counts.now values.now) (bits_in r.old) }
    ensures kept { IfErr result (λ stop. bits_in r.new ≡ bits_in r.old) }
{
    let mut here = *r;
    let mut code = 0;
    for l in 0..16 {
        let bit = here.next_bit()?;
        code = 2 * code + (bit as usize);
        if code < usize::from(numbers[3 * l + 1]) {
            let smallest = usize::from(numbers[3 * l]);
            let position = usize::from(numbers[3 * l + 2]);
            *r = here;
            return Ok(values[position + code - smallest]);
        }
    }
    Err(here.stop(14))
}
