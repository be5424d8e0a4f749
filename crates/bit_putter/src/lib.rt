// Bytes out of bits, highest bit first, with 00 after FF and padding (docs/RULES.md, B7).
#![tactic(auto)]

ghost use Rattle.std.specs.Prelude.{◌≡◌, [], ◌∷◌, ◌+◌, ◌-◌, ◌*◌, ◌%◌, ◌^◌, ◌≤◌, ◌<◌, set, length};
ghost use Rattle.std.proofs.lemmas.List.Edits.{sets};
ghost use Rattle.bit_rules.specs.Digits.{digits};
ghost use Rattle.bit_rules.specs.Pack.{stuffed, padded};
ghost use Rattle.bit_putter.specs.Code.{Sound, Puts, Ends};

// Bytes stored or counted so far, the bits in hand as a number, and how many bits the byte takes after the next one.
#[derive(Clone, Copy)]
pub struct Putter {
    pub at: usize,
    pub held: u8,
    pub room: u8,
}

// A byte is stored where it fits; past the end it is only counted.
fn store(destination: &mut [u8], at: usize, byte: u8)
    ensures { destination.new ≡ set destination.old at byte }
{
    if at < destination.len() {
        destination[at] = byte;
    }
}

// A whole byte, "with 00 after FF"; the count of bytes then.
fn put_byte(destination: &mut [u8], at: usize, byte: u8) -> usize
    requires { at < 2 ^ 62 }
    ensures { (destination.new ≡ sets destination.old at (stuffed byte [])) × (result ≡ at + length (stuffed byte [])) }
{
    store(destination, at, byte);
    if byte == 255 {
        store(destination, at + 1, 0);
        return at + 2;
    }
    at + 1
}

// One bit.
pub fn put_bit(destination: &mut [u8], p: Putter, bit: bool) -> Putter
    requires sound { Sound p }
    requires at_bound { p.at < 2 ^ 62 }
    ensures { Puts destination.old destination.new p result (bit ∷ []) }
{
    let room = p.room;
    let held = ((p.held & 127) << 1) | (bit as u8);
    if room == 0 {
        let at = put_byte(destination, p.at, held);
        return Putter {
            at,
            held: 0,
            room: 7,
        };
    }
    Putter {
        at: p.at,
        held,
        room: room - 1,
    }
}

// The n low bits of a number.
fn low(number: u32, n: usize) -> u32
    requires { n ≤ 16 }
    ensures { (result ≡ number % 2 ^ n) × (result < 2 ^ n) }
{
    number & ((1 << n) - 1)
}

// The bits in hand and the low bits of a number, as one number.
fn gathered(held: u8, size: usize, number: u32) -> u32
    requires { (held < 128) × (size ≤ 16) }
    ensures { result ≡ held * 2 ^ size + number % 2 ^ size }
{
    ((held as u32) << size) | low(number, size)
}

// The bits of a number, the highest first: whole bytes of the bits in hand and these, then what is left of them in hand.
pub fn put_digits(destination: &mut [u8], p: Putter, size: usize, number: u32) -> Putter
    requires sound { Sound p }
    requires at_bound { (p.at < 2 ^ 61) × (size ≤ 16) }
    ensures { Puts destination.old destination.new p result (digits size number) }
{
    let all = gathered(p.held, size, number);
    let mut at = p.at;
    let mut count = 7 - (p.room as usize) + size;
    // A while: the count goes down by the eight bits of a byte.
    while 8 <= count {
        count -= 8;
        at = put_byte(destination, at, low(all >> count, 8) as u8);
    }
    Putter {
        at,
        held: low(all, count) as u8,
        room: 7 - (count as u8),
    }
}

// The bits in hand, then ones.
fn fill_up(held: u8, room: u8) -> u8
    requires { (room ≤ 7) × (held < 2 ^ (7 - room)) }
    ensures { result ≡ padded held room }
{
    let mut h = held;
    for _ in 0..room {
        h = 2 * h + 1;
    }
    2 * h + 1
}

// "Its padding is ones": the last byte, and how many bytes there are.
pub fn put_end(destination: &mut [u8], p: Putter) -> usize
    requires sound { Sound p }
    requires at_bound { p.at < 2 ^ 62 }
    ensures { Ends destination.old destination.new p result }
{
    if p.room == 7 {
        return p.at;
    }
    let last = fill_up(p.held, p.room);
    put_byte(destination, p.at, last)
}
