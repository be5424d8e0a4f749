// Runs the merge on the cases that tools/vectors/merge.py computed with exact fractions, and writes number, place, second place and the whole
// destination, a case a line.
#![tactic(auto)]

ghost use Rattle.std.specs.Prelude.{◌<◌, ◌≤◌};

use answers::Answer;

// A count, no larger than the arrays here.
fn count(bytes: &[u8], at: usize, most: usize) -> usize
    ensures { result ≤ most }
{
    let n = records::number_at(bytes, at);
    if most < n {
        return most;
    }
    n
}

// A signed 16-bit number, stored with 2^15 added.
fn weight(bytes: &[u8], at: usize, i: usize) -> i16 {
    let pair = records::pair_at(bytes, records::past(bytes.len(), at, i));
    let v = (pair as i32) - 32768;
    v as i16
}

fn colour(n: usize) -> merge_rules::Colour {
    if n == 0 {
        return merge_rules::Colour::Identity;
    }
    merge_rules::Colour::Transform
}

fn curve(n: usize) -> merge_rules::Curve {
    if n == 0 {
        return merge_rules::Curve::Straight;
    }
    if n == 1 {
        return merge_rules::Curve::Table;
    }
    merge_rules::Curve::Srgb
}

fn matrix(n: usize) -> merge_rules::Matrix {
    if n == 0 {
        return merge_rules::Matrix::None;
    }
    merge_rules::Matrix::On
}

fn residual(n: usize) -> merge_rules::Residual {
    if n == 0 {
        return merge_rules::Residual::Absent;
    }
    merge_rules::Residual::Present
}

// The matrix.
fn weights(bytes: &[u8], at: usize) -> [i16; 9] {
    let a = weight(bytes, at, 0);
    let b = weight(bytes, at, 2);
    let c = weight(bytes, at, 4);
    let d = weight(bytes, at, 6);
    let e = weight(bytes, at, 8);
    let f = weight(bytes, at, 10);
    let g = weight(bytes, at, 12);
    let h = weight(bytes, at, 14);
    let j = weight(bytes, at, 16);
    [a, b, c, d, e, f, g, h, j]
}

// Number i of a case.
fn number(bytes: &[u8], at: usize, i: usize) -> usize
    requires { i ≤ 14 }
    ensures { result < 4294967296 }
{
    records::number_at(bytes, records::past(bytes.len(), at, 4 * i))
}

fn setting(bytes: &[u8], at: usize) -> merge_rules::Setting {
    let w = weights(bytes, records::past(bytes.len(), at, 56));
    merge_rules::Setting {
        rb: number(bytes, at, 0) as u32,
        rh: number(bytes, at, 1) as u32,
        rr: number(bytes, at, 2) as u32,
        components: number(bytes, at, 3) as u32,
        base_transform: colour(number(bytes, at, 5)),
        curve: curve(number(bytes, at, 6)),
        matrix: matrix(number(bytes, at, 7)),
        weights: w,
        residual: residual(number(bytes, at, 8)),
        residual_transform: colour(number(bytes, at, 9)),
    }
}

// Number, place, second place and destination, in a line.
fn write_line(a: Answer, destination: &[u16]) {
    io::print_decimal(1, a.number as u64);
    io::write_all(1, b" ");
    io::print_decimal(1, a.place as u64);
    io::write_all(1, b" ");
    io::print_decimal(1, a.second as u64);
    for &sample in destination {
        io::write_all(1, b" ");
        io::print_decimal(1, sample as u64);
    }
    io::write_all(1, b"\n");
}

// A case whose lists stand one behind the other; where the next case stands.
fn run_on(
    bytes: &[u8],
    at: usize,
    base: &mut [i32],
    residual: &mut [i32],
    table: &mut [u16],
    destination: &mut [u16],
) -> usize {
    let end = bytes.len();
    let first = records::past(end, at, 74);
    let second = records::past(end, first, 4 * base.len());
    let third = records::past(end, second, 4 * residual.len());
    let next = records::past(end, third, 2 * table.len());
    records::values_at(bytes, first, base);
    records::values_at(bytes, second, residual);
    records::sizes_at(bytes, third, table);
    let s = setting(bytes, at);
    let a = merge::merge(s, number(bytes, at, 4), base, residual, table, destination);
    write_line(a, destination);
    next
}

fn run(bytes: &[u8], at: usize) -> usize {
    let nb = count(bytes, records::past(bytes.len(), at, 40), 64);
    let nr = count(bytes, records::past(bytes.len(), at, 44), 64);
    let nt = count(bytes, records::past(bytes.len(), at, 48), 4097);
    let nd = count(bytes, records::past(bytes.len(), at, 52), 64);
    let mut base = [0i32; 64];
    let mut residual = [0i32; 64];
    let mut table = [0u16; 4097];
    let mut destination = [4660u16; 64];
    run_on(
        bytes,
        at,
        &mut base[0..nb],
        &mut residual[0..nr],
        &mut table[0..nt],
        &mut destination[0..nd],
    )
}

// The file begins with the number of its cases.
fn run_all(bytes: &[u8]) {
    let cases = records::number_at(bytes, 0);
    let mut at = 4;
    for _ in 0..cases {
        at = run(bytes, at);
    }
}

// Room for the records: an array that a function makes is not written out in the proof of its caller.
fn file_room() -> [u8; 262144] {
    [0u8; 262144]
}

fn main() {
    let mut file = file_room();
    let n = io::read_full(0, &mut file);
    run_all(&file[..n]);
}
