// Bits out of coded bytes, highest bit first, with 00 after FF (docs/RULES.md, B1 to B6, B8): a reader that holds the lent data and its place in them.
#![tactic(auto)]

ghost use Rattle.std.specs.Prelude.{◌≡◌, ◌/◌, eqb, IfErr};
ghost use Rattle.laws.specs.Index.{every};
ghost use Rattle.bit_rules.specs.Source.{start, take_bit, only_padding};
ghost use Rattle.bits.specs.Code.{highs, bits_in, opened_at, read_by};

// "data end early"
const DATA_END: u32 = 12;

// "FF without 00 after it"
const BARE_FF: u32 = 13;

// Why reading stops: a refusal's number, and the offset of the byte that the last bit asked for came from, or of the byte that was missing.
#[derive(Clone, Copy)]
pub struct Stop {
    pub number: u32,
    pub offset: usize,
}

// The lent data and a place in them: the offset of the byte that the last bit came from, bytes read so far, and the unread bits of the last one, `left` of them, the highest of `byte`.
#[derive(Clone, Copy)]
pub struct BitReader<'a> {
    pub data: &'a [u8],
    pub last: usize,
    pub at: usize,
    pub left: u8,
    pub byte: u8,
}

impl<'a> BitReader<'a> {
    // Data of which nothing was read.
    pub fn new(data: &'a [u8]) -> BitReader<'a>
        ensures { bits_in result ≡ start «data».now }
    {
        BitReader {
            data,
            last: 0,
            at: 0,
            left: 0,
            byte: 0,
        }
    }

    // The next bit. "A byte is read only when a bit of it is needed."
    pub fn next_bit(&mut self) -> Result<bool, Stop>
        ensures taken { read_by self.new result ≡ take_bit (bits_in self.old) }
        ensures kept { IfErr result (λ stop. bits_in self.new ≡ bits_in self.old) }
    {
        let at = self.at;
        if 0 < self.left {
            return Ok(self.open(at, self.left - 1, self.byte, self.last));
        }
        if self.data.len() <= at {
            return Err(Stop {
                number: DATA_END,
                offset: at,
            });
        }
        let b = self.data[at];
        if b != 255 {
            return Ok(self.open(at + 1, 7, b, at));
        }
        if self.data.len() <= at + 1 {
            return Err(Stop {
                number: DATA_END,
                offset: at + 1,
            });
        }
        if self.data[at + 1] != 0 {
            return Err(Stop {
                number: BARE_FF,
                offset: at,
            });
        }
        Ok(self.open(at + 2, 7, 255, at))
    }

    // The highest bit of a byte, which is kept moved up by one: `left` of its bits are unread then.
    fn open(&mut self, at: usize, left: u8, byte: u8, last: usize) -> bool
        ensures bit { result ≡ eqb (byte / 128) 1 }
        ensures after { self.new ≡ opened_at self.old at left byte last }
    {
        self.at = at;
        self.left = left;
        self.byte = (byte & 127) << 1;
        self.last = last;
        byte >> 7 == 1
    }

    // A refusal at the last bit asked for.
    pub fn stop(&self, number: u32) -> Stop
        ensures { result ≡ record { number = number; offset = (bits_in self.now).last } }
    {
        Stop {
            number,
            offset: self.last,
        }
    }

    // Whether nothing but padding is left.
    pub fn is_padding(&self) -> bool
        ensures { result ≡ only_padding (bits_in self.now) }
    {
        ones_left(self.left, self.byte) && self.data.len() <= self.at
    }

    // How many bytes were read.
    pub fn seen(&self) -> usize
        ensures { result ≡ (bits_in self.now).seen }
    {
        self.at
    }
}

// Whether the unread bits of the byte in hand are all ones.
fn ones_left(left: u8, byte: u8) -> bool
    ensures { result ≡ every (highs left byte) }
{
    let mut b = byte;
    for _ in 0..left {
        if b >> 7 != 1 {
            return false;
        }
        b = (b & 127) << 1;
    }
    true
}
