// What the words of `box_out` ask for.
#![tactic(auto)]

ghost use Rattle.std.specs.Prelude.{◌≡◌, ◌≤◌, ◌<◌};
ghost use Rattle.asking.specs.Words.{read_from, type_of, instance_of};
ghost use Rattle.asking.specs.Words.{digit as Words·digit};

// The value of a hexadecimal digit, or 255. (A number and no Option: the rule `digit` says 255.)
fn digit(b: usize) -> usize
    ensures { (result ≡ Words·digit b) × (result < 256) }
{
    if b < 48 {
        return 255;
    }
    if b < 58 {
        return b - 48;
    }
    if b < 65 {
        return 255;
    }
    if b < 71 {
        return b - 55;
    }
    if b < 97 {
        return 255;
    }
    if b < 103 {
        return b - 87;
    }
    255
}

// The number that a word of digits makes.
fn read_number(word: &[u8], base: usize) -> Option<usize>
    requires { base ≤ 16 }
    ensures { result ≡ read_from base 0 word.now }
{
    let mut value: usize = 0;
    for b in word {
        if 268435455 < value {
            return None;
        }
        let d = digit(usize::from(*b));
        if base <= d {
            return None;
        }
        value = value * base + d;
    }
    Some(value)
}

// The type that a word asks for.
pub fn type_of(word: &[u8]) -> Option<usize>
    ensures { result ≡ type_of word.now }
{
    if word.len() == 4 {
        return Some(
            ((usize::from(word[0]) * 256 + usize::from(word[1])) * 256 + usize::from(word[2])) * 256
                + usize::from(word[3]),
        );
    }
    if word.len() == 8 {
        return read_number(word, 16);
    }
    None
}

// The instance that a word asks for.
pub fn instance_of(word: &[u8]) -> Option<usize>
    ensures { result ≡ instance_of word.now }
{
    if word.is_empty() {
        return None;
    }
    match read_number(word, 10) {
        None => None,
        Some(value) => { if value <= 65535 { Some(value) } else { None } }
    }
}
