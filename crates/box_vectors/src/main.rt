// Runs the vectors that tools/vectors/boxes.py made through `xt_box_bytes`: a line for each group.
#![tactic(auto)]

use answers::Answer;
use test_rules::Finding;

// What a call for C answered.
fn called(number: u32, place: u64, second: u64) -> Answer {
    Answer {
        number,
        place: place as usize,
        second: second as usize,
    }
}

// A record: group, type, instance, room, the file, and the number, place and bytes expected. The second place is 0 in each answer of this call.
fn boxed(bytes: &[u8], at: usize, told: usize, output: &mut [u8]) -> bool {
    let end = bytes.len();
    let kind = records::number_at(bytes, records::past(end, at, 4)) as u32;
    let instance = records::pair_at(bytes, records::past(end, at, 8)) as u16;
    let file = records::lent(bytes, records::past(end, at, 14));
    let number = records::number_at(bytes, told);
    let place = records::number_at(bytes, records::past(end, told, 4));
    let expected = records::lent(bytes, records::past(end, told, 8));
    let mut at_place = 99u64;
    let mut at_second = 99u64;
    let answered = reader_c::xt_box_bytes(
        file,
        kind,
        instance,
        output,
        &mut at_place,
        &mut at_second,
    );
    let a = called(answered, at_place, at_second);
    let wrong = tallies::first_wrong_byte(output, expected, number);
    tallies::right(a, number, place, 0, wrong)
}

fn run_record(bytes: &[u8], at: usize) -> Finding {
    let end = bytes.len();
    let room = records::number_at(bytes, records::past(end, at, 10));
    let size = records::number_at(bytes, records::past(end, at, 14));
    let told = records::past(end, records::past(end, at, 18), size);
    let expected = records::number_at(bytes, records::past(end, told, 8));
    let next = records::past(end, records::past(end, told, 12), expected);
    let mut output = [7u8; 10000];
    if 10000 < room {
        return Finding { good: false, next };
    }
    let good = boxed(bytes, at, told, &mut output[0..room]);
    Finding { good, next }
}

fn run_all(bytes: &[u8]) {
    let mut run = tallies::begun(bytes);
    for _ in 0..run.left {
        let ran = run_record(bytes, run.at);
        run = tallies::next_run(bytes, run, ran);
    }
}

// Room for the records: an array that a function makes is not written out in the proof of its caller.
fn file_room() -> [u8; 400000] {
    [0u8; 400000]
}

fn main() {
    let mut file = file_room();
    let got = io::read_full(0, &mut file);
    run_all(&file[..got]);
}
