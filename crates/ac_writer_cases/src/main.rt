// Writes of AC planes, each a line: its name, the number, the place, the second place, and the first four bytes of the destination, which holds 9s before.
#![tactic(auto)]

fn say(text: &[u8]) {
    io::write_all(1, text);
}

fn say_number(number: u64) {
    say(b" ");
    io::print_decimal(1, number);
}

// The first `count` of the values, with codes of two bits, into `room` bytes.
fn write_part(
    name: &[u8],
    plane: u32,
    blocks: usize,
    codes: &[u8],
    values: &[i32],
    count: usize,
    room: usize,
) {
    if values.len() < count {
        return;
    }
    if 4 < room {
        return;
    }
    let counts: [u8; 16] = [0, 3, 0, 0, 0, 0, 0, 0, 0, 0, 0, 0, 0, 0, 0, 0];
    let mut destination = [9u8; 4];
    let a = ac_writer::write_ac(
        plane,
        blocks,
        &counts[..],
        codes,
        &values[0..count],
        &mut destination[0..room],
    );
    say(name);
    say_number(a.number as u64);
    say_number(a.place as u64);
    say_number(a.second as u64);
    say_number(u64::from(destination[0]));
    say_number(u64::from(destination[1]));
    say_number(u64::from(destination[2]));
    say_number(u64::from(destination[3]));
    say(b"\n");
}

// A value at an index of the first block, one at the same index of the second, zeros elsewhere.
fn write_some(
    name: &[u8],
    plane: u32,
    blocks: usize,
    codes: &[u8],
    index: usize,
    first: i32,
    second: i32,
    count: usize,
    room: usize,
) {
    if 63 <= index {
        return;
    }
    let mut values = [0i32; 189];
    values[index] = first;
    values[index + 63] = second;
    write_part(name, plane, blocks, codes, &values[..], count, room);
}

// Planes that are written.
fn show_written() {
    // Table T of S3: values 00, 01, F0.
    write_some(b"corrected", 1, 1, b"\x00\x01\xF0", 0, 7, 0, 63, 4);
    write_some(b"toward-zero", 1, 1, b"\x00\x01\xF0", 0, -3, 0, 63, 4);
    write_some(b"new-value", 1, 1, b"\x00\x01\xF0", 0, 1, 0, 63, 4);
    write_some(b"sixteen-zeros", 1, 1, b"\x00\x01\xF0", 16, 1, 0, 63, 4);
    write_some(b"new-at-63", 1, 1, b"\x01\xF0\xE1", 62, -1, 0, 63, 4);
    write_some(b"second-block", 1, 2, b"\x00\x01\xF0", 0, 0, 1, 126, 4);
    write_some(b"run-of-three", 1, 3, b"\x10\x01\xF0", 0, 0, 0, 189, 4);
    write_some(
        b"run-behind-a-value",
        1,
        3,
        b"\x10\x01\x00",
        0,
        1,
        0,
        189,
        4,
    );
    write_some(b"no-blocks", 1, 0, b"\x00\x01\xF0", 0, 0, 0, 0, 4);
    write_some(b"plane-three", 3, 1, b"\x00\x01\xF0", 0, 7, 0, 63, 4);
}

// The refusals in their order.
fn show_refused() {
    write_some(b"plane-five", 5, 1, b"\x00\x01\xF0", 0, 7, 0, 63, 4);
    write_some(b"values-missing", 1, 1, b"\x00\x01\x01", 0, 7, 0, 62, 4);
    write_some(b"bad-table", 1, 1, b"\x00\x01\x01", 0, 4096, 0, 63, 4);
    write_some(b"out-of-range", 1, 2, b"\x00\x01\xF1", 5, 0, 4096, 126, 0);
    write_some(b"no-run-code", 1, 3, b"\x00\x01\xF0", 0, 0, 0, 189, 0);
    write_some(b"no-zeros-code", 1, 1, b"\x00\x01\x02", 20, 1, 0, 63, 0);
    write_some(b"no-room", 1, 1, b"\x00\x01\xF0", 0, 7, 0, 63, 0);
}

// "28, level retired": whatever is lent, directly behind 20.
fn show_retired() {
    write_some(b"plane-four", 4, 1, b"\x00\x01\xF0", 0, 7, 0, 63, 4);
    write_some(b"four-no-blocks", 4, 0, b"\x00\x01\xF0", 0, 0, 0, 0, 4);
    write_some(
        b"four-values-missing",
        4,
        1,
        b"\x00\x01\xF0",
        0,
        7,
        0,
        62,
        4,
    );
    write_some(b"four-bad-table", 4, 1, b"\x00\x01\x01", 0, 7, 0, 63, 4);
    write_some(b"four-too-many", 4, 1025, b"\x00\x01\xF0", 0, 7, 0, 63, 4);
}

fn main() {
    show_written();
    show_refused();
    show_retired();
}
