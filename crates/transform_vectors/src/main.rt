// Runs the transform on the records that tools/vectors/transform.py computed by itself: a line for each group.
#![tactic(auto)]

use test_rules::Finding;

// A record of the file: the numbers before its lists, how long these are, and where they stand.
#[derive(Clone, Copy)]
struct Case {
    refinement: u32,
    blocks: usize,
    room: usize,
    number: usize,
    place: usize,
    values: usize,
    quantisers: usize,
    expected: usize,
    next: usize,
}

fn case_at(bytes: &[u8], at: usize) -> Case {
    let end = bytes.len();
    let values = records::past(end, at, 24);
    let count = records::number_at(bytes, values);
    let quantisers = records::past(end, records::past(end, values, 4), 4 * count);
    let pairs = records::number_at(bytes, quantisers);
    let expected = records::past(end, records::past(end, quantisers, 4), 2 * pairs);
    let held = records::number_at(bytes, expected);
    Case {
        refinement: records::number_at(bytes, records::past(end, at, 4)) as u32,
        blocks: records::number_at(bytes, records::past(end, at, 8)),
        room: records::number_at(bytes, records::past(end, at, 12)),
        number: records::number_at(bytes, records::past(end, at, 16)),
        place: records::number_at(bytes, records::past(end, at, 20)),
        values,
        quantisers,
        expected,
        next: records::past(end, records::past(end, expected, 4), 4 * held),
    }
}

// The call that a record asks for: number, place and the whole destination are right, and the second place is 0, as in each answer of this call.
fn transforms(
    bytes: &[u8],
    c: Case,
    values: &mut [i32],
    quantisers: &mut [u16],
    expected: &mut [i32],
    destination: &mut [i32],
) -> bool {
    let end = bytes.len();
    records::values_at(bytes, records::past(end, c.values, 4), values);
    records::sizes_at(bytes, records::past(end, c.quantisers, 4), quantisers);
    records::values_at(bytes, records::past(end, c.expected, 4), expected);
    let a = transform::inverse_transform(c.refinement, c.blocks, values, quantisers, destination);
    let wrong = tallies::first_wrong_value(destination, expected, c.number);
    tallies::right(a, c.number, c.place, 0, wrong)
}

fn run_record(bytes: &[u8], at: usize) -> Finding {
    let c = case_at(bytes, at);
    let next = c.next;
    let v = records::number_at(bytes, c.values);
    let q = records::number_at(bytes, c.quantisers);
    let e = records::number_at(bytes, c.expected);
    let d = c.room;
    let mut values = [0i32; 8192];
    let mut quantisers = [0u16; 128];
    let mut expected = [0i32; 8192];
    let mut destination = [7i32; 8192];
    if 8192 < v {
        return Finding { good: false, next };
    }
    if 128 < q {
        return Finding { good: false, next };
    }
    if 8192 < e {
        return Finding { good: false, next };
    }
    if 8192 < d {
        return Finding { good: false, next };
    }
    let good = transforms(
        bytes,
        c,
        &mut values[0..v],
        &mut quantisers[0..q],
        &mut expected[0..e],
        &mut destination[0..d],
    );
    Finding { good, next }
}

fn run_all(bytes: &[u8]) {
    let mut run = tallies::begun(bytes);
    for _ in 0..run.left {
        let ran = run_record(bytes, run.at);
        run = tallies::next_run(bytes, run, ran);
    }
}

// Room for the records: an array that a function makes is not written out in the proof of its caller.
fn file_room() -> [u8; 400000] {
    [0u8; 400000]
}

fn main() {
    let mut file = file_room();
    let got = io::read_full(0, &mut file);
    run_all(&file[..got]);
}
