// Readings of one AC block, case c of the whiteboard (S3) first: a line for each, with the number, the place, the second place, and the values at positions 1, 2, 17 and 63.
#![tactic(auto)]

fn say(text: &[u8]) {
    io::write_all(1, text);
}

// The values that come out here.
fn say_value(value: i32) {
    match value {
        -1 => say(b" -1"),
        0 => say(b" 0"),
        1 => say(b" 1"),
        6 => say(b" 6"),
        7 => say(b" 7"),
        _ => say(b" ?"),
    }
}

// Plane 1 of one block whose values at positions 1 and 63 are these; the destination is not zero before.
fn read_one(name: &[u8], codes: &[u8], data: &[u8], first: i32, last: i32) {
    let counts: [u8; 16] = [0, 3, 0, 0, 0, 0, 0, 0, 0, 0, 0, 0, 0, 0, 0, 0];
    let mut values = [0i32; 63];
    values[0] = first;
    values[62] = last;
    let mut destination = [9i32; 63];
    let a = ac_reader::read_ac(
        1,
        1,
        &counts[..],
        codes,
        data,
        &values[..],
        &mut destination[..],
    );
    say(name);
    say(b" ");
    io::print_decimal(1, a.number as u64);
    say(b" ");
    io::print_decimal(1, a.place as u64);
    say(b" ");
    io::print_decimal(1, a.second as u64);
    say_value(destination[0]);
    say_value(destination[1]);
    say_value(destination[16]);
    say_value(destination[62]);
    say(b"\n");
}

// Plane 1 of one block with table T: values 00, 01, F0.
fn read_with_t(name: &[u8], data: &[u8], first: i32, last: i32) {
    read_one(name, b"\x00\x01\xF0", data, first, last);
}

fn case_c() {
    read_with_t(b"new-value", b"\x67", 0, 0);
    read_with_t(b"corrected", b"\x3F", 3, 0);
    read_with_t(b"both", b"\x43", 3, 0);
    read_with_t(b"bad-padding", b"\x43", 0, 0);
    read_with_t(b"no-data", b"", 0, 0);
}

// The sign before the correction, 16 zeros, the walk that passes position 63.
fn walks() {
    read_with_t(b"sign-first", b"\x63", 3, 0);
    read_with_t(b"sixteen-zeros", b"\x99", 0, 0);
    read_with_t(b"no-place", b"\xAA", 0, 0);
    read_with_t(b"no-bit-on-the-way", b"\xAA", 0, 3);
    read_with_t(b"no-place-then", b"\xAA\x80", 0, 3);
}

// Each other refusal of a bit, a code, a table or a value.
fn refusals() {
    read_one(b"run-too-long", b"\x10\x01\xF0", b"\x3F", 0, 0);
    read_one(b"code-not-used", b"\x00\x01\x02", b"\x80", 0, 0);
    read_with_t(b"no-code", b"\xFF\x00\xFF\x00", 0, 0);
    read_with_t(b"marker", b"\xFF\x01", 0, 0);
    read_one(b"bad-table", b"\x00\x01\x01", b"\x67", 0, 0);
    read_with_t(b"out-of-range", b"\x67", 0, 2048);
}

fn main() {
    case_c();
    walks();
    refusals();
}
