// Bits taken one by one through a reader that holds its data: a line for each case. It has each bit with the offset of the byte it came from (1@0), and the number
// that is given, where the data end or break with the offset told (12@1), and the bytes read.
#![tactic(auto)]

use bits::{BitReader, Stop};

fn say(text: &[u8]) {
    io::write_all(1, text);
}

fn say_number(number: u64) {
    io::print_decimal(1, number);
}

// A bit, and the byte it came from.
fn say_bit(bit: bool, byte: usize) {
    if bit {
        say(b"1@");
    } else {
        say(b"0@");
    }
    say_number(byte as u64);
    say(b" ");
}

fn say_seen(seen: usize) {
    say(b" ");
    say_number(seen as u64);
    say(b"\n");
}

// After the last bit: 18 where something else than padding is left.
fn say_end<'a>(r: &BitReader<'a>) {
    if r.is_padding() {
        say(b"0");
    } else {
        say_number(r.stop(18).number as u64);
    }
    say_seen(r.seen());
}

// Where the data end or break, the offset told and the bytes read before.
fn say_stop(stop: Stop, seen: usize) {
    say_number(stop.number as u64);
    say(b"@");
    say_number(stop.offset as u64);
    say_seen(seen);
}

// This many bits.
fn show(data: &[u8], count: usize) {
    let mut r = BitReader::new(data);
    for _ in 0..count {
        match r.next_bit() {
            Ok(bit) => say_bit(bit, r.stop(0).offset),
            Err(stop) => return say_stop(stop, r.seen()),
        }
    }
    say_end(&r);
}

fn main() {
    // Readings d and c: the bits that each plane takes, and its padding.
    show(b"\xBF", 3);
    show(b"\x67", 5);
    show(b"\x3F", 3);
    show(b"\x43", 5);
    // No data: nothing asked, a bit asked.
    show(b"", 0);
    show(b"", 1);
    // The byte behind the last one is missing.
    show(b"\x5A", 9);
    // "FF as last byte is 12", and the byte behind it is missing; another byte after FF; "The 00 is tested and counted with its FF.".
    show(b"\xFF", 1);
    show(b"\xFF\x01", 1);
    show(b"\xFF\x00", 1);
    show(b"\xFF\x00\xFF", 9);
    // "A byte is read only when a bit of it is needed": 18 before 12, and 13 once it is needed.
    show(b"\xBF\xFF", 1);
    show(b"\xBF\xFF\x01", 9);
    // Bytes left, though they are ones; zeros for padding. A bit's byte is the FF, never its 00.
    show(b"\xFF\x00\xFF\x00", 8);
    show(b"\x7F\xFF\x00\x80", 17);
}
