// Runs the vectors that tools/vectors/planes.py made through the calls on planes: a line for each group.
#![tactic(auto)]

use answers::Answer;
use test_rules::Finding;

// A number that stands `above` too high.
fn brought_down(x: usize, above: usize) -> i32 {
    if x < 2097152 {
        if above < 2097152 {
            return (x as i32) - (above as i32);
        }
    }
    0
}

// One entry of a list of values: how many zeros stand before it, the value, and how many bytes it takes.
#[derive(Clone, Copy)]
struct Entry {
    gap: usize,
    value: i32,
    size: usize,
}

fn entry_at(bytes: &[u8], at: usize) -> Entry {
    let gap = records::byte_at(bytes, at);
    let next = records::past(bytes.len(), at, 1);
    let small = records::pair_at(bytes, next);
    if small == 32768 {
        let far = records::past(bytes.len(), at, 3);
        return Entry {
            gap,
            value: brought_down(records::number_at(bytes, far), 1048576),
            size: 7,
        };
    }
    if small < 32768 {
        return Entry {
            gap,
            value: brought_down(small, 0),
            size: 3,
        };
    }
    Entry {
        gap,
        value: brought_down(small, 65536),
        size: 3,
    }
}

// A value in its place, where there is one.
fn put(values: &mut [i32], place: usize, value: i32) {
    if place < values.len() {
        values[place] = value;
    }
}

// The values of a list of entries; where it ends. A gap of 255 is 255 zeros and no value.
fn spread(bytes: &[u8], from: usize, entries: usize, values: &mut [i32]) -> usize {
    let mut at = from;
    let mut place = 0;
    for _ in 0..entries {
        let e = entry_at(bytes, at);
        place = records::past(values.len(), place, e.gap);
        at = records::past(bytes.len(), at, e.size);
        if e.gap != 255 {
            put(values, place, e.value);
            place = records::past(values.len(), place, 1);
        }
    }
    at
}

// A record of the file: the numbers before its values, and where its parts stand.
#[derive(Clone, Copy)]
struct Case {
    kind: usize,
    plane: u32,
    blocks: usize,
    room: usize,
    counts: usize,
    codes: usize,
    data: usize,
    values: usize,
}

fn case_at(bytes: &[u8], at: usize) -> Case {
    let end = bytes.len();
    let counts = records::past(end, at, 17);
    let codes = records::past(
        end,
        records::past(end, counts, 4),
        records::number_at(bytes, counts),
    );
    let data = records::past(
        end,
        records::past(end, codes, 4),
        records::number_at(bytes, codes),
    );
    let values = records::past(
        end,
        records::past(end, data, 4),
        records::number_at(bytes, data),
    );
    Case {
        kind: records::byte_at(bytes, records::past(end, at, 4)),
        plane: records::number_at(bytes, records::past(end, at, 5)) as u32,
        blocks: records::number_at(bytes, records::past(end, at, 9)),
        room: records::number_at(bytes, records::past(end, at, 13)),
        counts,
        codes,
        data,
        values,
    }
}

// Calls 1 and 2 are DC planes read and written, 3 and 4 AC, 5 and 6 both ways.
fn is_ac(kind: usize) -> bool {
    match kind {
        3 | 4 | 6 => true,
        _ => false,
    }
}

// What a call for C answered.
fn called(number: u32, place: u64, second: u64) -> Answer {
    Answer {
        number,
        place: place as usize,
        second: second as usize,
    }
}

// The call that a record asks for, on its data and its table.
fn read_plane(bytes: &[u8], c: Case, values: &[i32], output: &mut [i32]) -> Answer {
    let data = records::lent(bytes, c.data);
    let mut place = 99u64;
    let mut second = 99u64;
    if is_ac(c.kind) {
        let counts = records::lent(bytes, c.counts);
        let codes = records::lent(bytes, c.codes);
        let ac = reader_c::xt_read_ac_plane(
            c.plane,
            c.blocks,
            counts,
            codes,
            data,
            values,
            output,
            &mut place,
            &mut second,
        );
        return called(ac, place, second);
    }
    let dc = reader_c::xt_read_dc_plane(
        c.plane,
        c.blocks,
        data,
        values,
        output,
        &mut place,
        &mut second,
    );
    called(dc, place, second)
}

fn write_plane(bytes: &[u8], c: Case, values: &[i32], output: &mut [u8]) -> Answer {
    let mut place = 99u64;
    let mut second = 99u64;
    if is_ac(c.kind) {
        let counts = records::lent(bytes, c.counts);
        let codes = records::lent(bytes, c.codes);
        let ac = reader_c::xt_write_ac_plane(
            c.plane,
            c.blocks,
            counts,
            codes,
            values,
            output,
            &mut place,
            &mut second,
        );
        return called(ac, place, second);
    }
    let dc = reader_c::xt_write_dc_plane(
        c.plane,
        c.blocks,
        values,
        output,
        &mut place,
        &mut second,
    );
    called(dc, place, second)
}

// A plane is read, and number, place, second place and the whole destination are right.
fn reads(
    bytes: &[u8],
    c: Case,
    values: &[i32],
    expected: &[i32],
    number: usize,
    place: usize,
    second: usize,
    output: &mut [i32],
) -> bool {
    let a = read_plane(bytes, c, values, output);
    let wrong = tallies::first_wrong_value(output, expected, number);
    tallies::right(a, number, place, second, wrong)
}

// The same for a plane that is written.
fn writes(
    bytes: &[u8],
    c: Case,
    values: &[i32],
    expected: &[u8],
    number: usize,
    place: usize,
    second: usize,
    output: &mut [u8],
) -> bool {
    let a = write_plane(bytes, c, values, output);
    let wrong = tallies::first_wrong_byte(output, expected, number);
    tallies::right(a, number, place, second, wrong)
}

// Half: downward for DC, toward zero for AC.
fn half_of(ac: bool, v: i32) -> i32 {
    if ac { v / 2 } else { v >> 1 }
}

fn halve(ac: bool, values: &[i32], halves: &mut [i32]) {
    for (half, &v) in halves.iter_mut().zip(values) {
        *half = half_of(ac, v);
    }
}

fn failed(next: usize) -> Finding {
    Finding { good: false, next }
}

// A record that reads: behind number, place and second place stand the values expected.
fn run_read(
    bytes: &[u8],
    c: Case,
    at: usize,
    values: &[i32],
    other: &mut [i32],
    output: &mut [i32],
) -> Finding {
    let end = bytes.len();
    let number = records::number_at(bytes, at);
    let place = records::number_at(bytes, records::past(end, at, 4));
    let second = records::number_at(bytes, records::past(end, at, 8));
    let out = records::past(end, at, 12);
    let n = records::number_at(bytes, out);
    let entries = records::number_at(bytes, records::past(end, out, 4));
    let next = spread(bytes, records::past(end, out, 8), entries, other);
    let room = c.room;
    if other.len() < n {
        return failed(next);
    }
    if output.len() < room {
        return failed(next);
    }
    let good = reads(
        bytes,
        c,
        values,
        &other[0..n],
        number,
        place,
        second,
        &mut output[0..room],
    );
    Finding { good, next }
}

// Writing answers the number, place and second place that stand at a position: these bytes, or a refusal.
fn answers_writing(
    bytes: &[u8],
    c: Case,
    at: usize,
    values: &[i32],
    expected: &[u8],
    coded: &mut [u8],
) -> bool {
    let end = bytes.len();
    let number = records::number_at(bytes, at);
    let place = records::number_at(bytes, records::past(end, at, 4));
    let second = records::number_at(bytes, records::past(end, at, 8));
    let room = c.room;
    if coded.len() < room {
        return false;
    }
    writes(
        bytes,
        c,
        values,
        expected,
        number,
        place,
        second,
        &mut coded[0..room],
    )
}

// A record that writes: behind number, place and second place stand the bytes expected.
fn run_write(bytes: &[u8], c: Case, at: usize, values: &[i32], coded: &mut [u8]) -> Finding {
    let end = bytes.len();
    let out = records::past(end, at, 12);
    let expected = records::lent(bytes, out);
    let next = records::past(end, records::past(end, out, 4), expected.len());
    let good = answers_writing(bytes, c, at, values, expected, coded);
    Finding { good, next }
}

// A record that does both: the data over the halves are read as the values, and the values are written as its data or refused: number, place and second place are writing's.
fn run_trip(
    bytes: &[u8],
    c: Case,
    at: usize,
    values: &[i32],
    other: &mut [i32],
    output: &mut [i32],
    coded: &mut [u8],
) -> Finding {
    let next = records::past(bytes.len(), at, 12);
    let n = values.len();
    if other.len() < n {
        return failed(next);
    }
    if output.len() < n {
        return failed(next);
    }
    halve(is_ac(c.kind), values, other);
    let data = records::lent(bytes, c.data);
    if !reads(bytes, c, &other[0..n], values, 0, n, 0, &mut output[0..n]) {
        return failed(next);
    }
    let good = answers_writing(bytes, c, at, values, data, coded);
    Finding { good, next }
}

// The record at a position, over lent arrays: zeros for its values and for others, sevens for what is handed out.
fn run_lent(
    bytes: &[u8],
    at: usize,
    values: &mut [i32],
    other: &mut [i32],
    output: &mut [i32],
    coded: &mut [u8],
) -> Finding {
    let c = case_at(bytes, at);
    let end = bytes.len();
    let n = records::number_at(bytes, c.values);
    let entries = records::number_at(bytes, records::past(end, c.values, 4));
    let next = spread(bytes, records::past(end, c.values, 8), entries, values);
    if values.len() < n {
        return failed(next);
    }
    if 4 < c.kind {
        return run_trip(bytes, c, next, &values[0..n], other, output, coded);
    }
    if c.kind % 2 == 1 {
        return run_read(bytes, c, next, &values[0..n], other, output);
    }
    run_write(bytes, c, next, &values[0..n], coded)
}

fn run_record(bytes: &[u8], at: usize) -> Finding {
    let mut values = [0i32; 65536];
    let mut other = [0i32; 65536];
    let mut output = [7i32; 65536];
    let mut coded = [7u8; 100000];
    run_lent(bytes, at, &mut values, &mut other, &mut output, &mut coded)
}

fn run_all(bytes: &[u8]) {
    let mut run = tallies::begun(bytes);
    for _ in 0..run.left {
        let ran = run_record(bytes, run.at);
        run = tallies::next_run(bytes, run, ran);
    }
}

// Room for the records: an array that a function makes is not written out in the proof of its caller.
fn file_room() -> [u8; 400000] {
    [0u8; 400000]
}

fn main() {
    let mut file = file_room();
    let got = io::read_full(0, &mut file);
    run_all(&file[..got]);
}
