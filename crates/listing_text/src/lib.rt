// The listing of a file's packets as text (docs/RULES.md, P13 to P19).
#![tactic(auto)]

ghost use Rattle.std.specs.Prelude.{◌≡◌, [], ◌∷◌, ◌+◌, ◌≤◌, ◌<◌, length};
ghost use Rattle.answers.specs.Verdict.{Meets, Tried};
ghost use Rattle.box_rules.specs.Walk.{steps_from};
ghost use Rattle.box_rules.specs.Packets.{packets_in};
ghost use Rattle.box_rules.specs.Text.{list_packets, dec, hex, lines};
ghost use Rattle.listing_text.specs.Code.{Wrote};
ghost use Rattle.box_rules.specs.Text.{glyph as Text·glyph, line as Text·line, answer as Text·answer, listing as Text·listing};

use answers::{Answer, Refusal};
use box_rules::Step;

// Stores a byte where there is room, and answers the next position.
fn put(out: &mut [u8], at: usize, b: u8) -> usize
    requires { at < 4611686018427387904 }
    ensures { Wrote out.old out.new at result (b ∷ []) }
{
    if at < out.len() {
        out[at] = b;
    }
    at + 1
}

// Stores a text.
fn put_text(out: &mut [u8], at: usize, text: &[u8]) -> usize
    requires { at + length text.now < 4611686018427387904 }
    ensures { Wrote out.old out.new at result text.now }
{
    let mut to = at;
    for &b in text {
        to = put(out, to, b);
    }
    to
}

// Stores a number in decimal.
fn put_dec(out: &mut [u8], at: usize, n: u64) -> usize
    requires { at + length (dec n) < 4611686018427387904 }
    ensures { Wrote out.old out.new at result (dec n) }
{
    if n < 10 {
        return put(out, at, 48 + n as u8);
    }
    let to = put_dec(out, at, n / 10);
    put(out, to, 48 + (n % 10) as u8)
}

// A number in decimal, which takes at most 20 bytes.
fn put_number(out: &mut [u8], at: usize, n: u64) -> usize
    requires { at < 4611686018427387000 }
    ensures wrote { Wrote out.old out.new at result (dec n) }
    ensures upper_bound { result ≤ at + 20 }
{
    put_dec(out, at, n)
}

// A hexadecimal digit, in upper case.
fn glyph(d: u32) -> u8
    requires { d < 16 }
    ensures { result ≡ Text·glyph d }
{
    if d < 10 { 48 + d as u8 } else { 55 + d as u8 }
}

// Stores the last k digits of a number in hexadecimal.
fn put_hex(out: &mut [u8], at: usize, k: u8, n: u32) -> usize
    requires { at + k < 4611686018427387904 }
    ensures wrote { Wrote out.old out.new at result (hex k n) }
    ensures value { result ≡ at + k }
{
    if k == 0 {
        return at;
    }
    let to = put_hex(out, at, k - 1, n / 16);
    put(out, to, glyph(n % 16))
}

// Stores the line of a packet.
fn put_line(out: &mut [u8], at: usize, instance: u16, number: u32, len: usize, kind: u32) -> usize
    requires { at < 2305843009213693952 }
    ensures wrote { Wrote out.old out.new at result (Text·line instance number len kind) }
    ensures upper_bound { result ≤ at + 72 }
{
    let a = put_number(out, at, instance as u64);
    let b = put(out, a, 32);
    let c = put_number(out, b, number as u64);
    let d = put(out, c, 32);
    let e = put_number(out, d, len as u64);
    let f = put(out, e, 32);
    let g = put_hex(out, f, 8, kind);
    put(out, g, 10)
}

// Stores the last line.
fn put_answer(out: &mut [u8], at: usize, number: u32, place: usize) -> usize
    requires { at < 2305843009213693952 }
    ensures wrote { Wrote out.old out.new at result (Text·answer number place) }
    ensures upper_bound { result ≤ at + 64 }
{
    let a = put_text(out, at, b"answer ");
    let b = put_number(out, a, number as u64);
    let c = put(out, b, 32);
    let d = put_number(out, c, place as u64);
    put(out, d, 10)
}

// Stores the lines of a file's packets.
fn put_lines(out: &mut [u8], at: usize, file: &[u8]) -> usize
    requires { (at ≤ 100) × (length file.now ≤ 65536) }
    ensures wrote { Wrote out.old out.new at result (lines (packets_in file.now (steps_from file.now 2))) }
    ensures upper_bound { result ≤ 10000000 }
{
    let mut pos: usize = 2;
    let mut to = at;
    loop {
        match packets::step_at(file, pos) {
            Step::End => {
                return to;
            }
            Step::Broken(_) => {
                return to;
            }
            Step::Skip(next) => {
                pos = next;
            }
            Step::Meet {
                head,
                start: _,
                len,
                next,
            } => {
                to = put_line(out, to, head.instance, head.number, len, head.kind);
                pos = next;
            }
        }
    }
}

// Stores the whole listing, and answers how long it is.
fn put_listing(out: &mut [u8], file: &[u8]) -> usize
    ensures { Wrote out.old out.new 0 result (Text·listing file.now) }
{
    let h = put_text(out, 0, b"instance number bytes type\n");
    if 65536 < file.len() {
        return put_answer(out, h, 20, 0);
    }
    match packets::walk_all(file) {
        Err(r) => put_answer(out, h, r.number, r.place),
        Ok(_) => {
            let e = put_lines(out, h, file);
            put_answer(out, e, 0, 0)
        }
    }
}

fn try_list(file: &[u8], text: &mut [u8]) -> Result<usize, Refusal>
    ensures { Tried 0 (list_packets file.now (length text.old)) text.old text.new result }
{
    let end = put_listing(text, file);
    if text.len() < end {
        return answers::refuse(9, end);
    }
    Ok(end)
}

// The listing of a file's packets.
pub fn list_packets(file: &[u8], text: &mut [u8]) -> Answer
    ensures { Meets 0 (list_packets file.now (length text.old)) text.old text.new result }
{
    let o = try_list(file, text);
    if o.is_err() {
        text.fill(0);
    }
    Answer::from(o)
}

// The line of an answer alone, at the front of a buffer, as far as there is room; and how long it is.
pub fn answer_line(number: u32, place: usize, out: &mut [u8]) -> usize
    ensures wrote { Wrote out.old out.new 0 result (Text·answer number place) }
    ensures upper_bound { result ≤ 64 }
{
    put_answer(out, 0, number, place)
}
