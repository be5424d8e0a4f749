// Runs the cases of tools/vectors/calls.py through the calls for C themselves, and writes number, place, second place and the whole destination, a case a line:
// the merge in all its modes, then transforms, then what previews owe.
#![tactic(auto)]

ghost use Rattle.std.specs.Prelude.{◌<◌, ◌≤◌};

// Number i of a case.
fn number(bytes: &[u8], at: usize, i: usize) -> usize
    requires { i ≤ 15 }
    ensures { result < 4294967296 }
{
    records::number_at(bytes, records::past(bytes.len(), at, 4 * i))
}

// The same as a setting.
fn set(bytes: &[u8], at: usize, i: usize) -> u32
    requires { i ≤ 15 }
{
    number(bytes, at, i) as u32
}

// The same as a length, no larger than the arrays here.
fn count(bytes: &[u8], at: usize, i: usize, most: usize) -> usize
    requires { i ≤ 15 }
    ensures { result ≤ most }
{
    let n = number(bytes, at, i);
    if most < n {
        return most;
    }
    n
}

// A signed 16-bit number, stored with 2^15 added.
fn weight(bytes: &[u8], at: usize) -> i16 {
    let pair = records::pair_at(bytes, at);
    let v = (pair as i32) - 32768;
    v as i16
}

// As many of them as the list has.
fn weights_at(bytes: &[u8], at: usize, list: &mut [i16]) {
    let mut next = at;
    for entry in list.iter_mut() {
        *entry = weight(bytes, next);
        next = records::past(bytes.len(), next, 2);
    }
}

fn write_number(n: u64) {
    io::print_decimal(1, n);
    io::write_all(1, b" ");
}

// A signed number with 2^31 added.
fn lifted(v: i32) -> u64 {
    let w = rounding::wide(v) + 2147483648;
    w as u64
}

// A line: what a call answered, and all that it left, each element as a number.
fn write_line<T: Copy, F: Fn(T) -> u64>(
    number: u32,
    place: u64,
    second: u64,
    destination: &[T],
    shown: F,
)
    requires { F.IsAlwaysCallable shown }
{
    write_number(number as u64);
    write_number(place);
    write_number(second);
    for &element in destination {
        write_number(shown(element));
    }
    io::write_all(1, b"\n");
}

// The merge that a case asks for, and its line.
fn call_merge(
    bytes: &[u8],
    at: usize,
    base: &[i32],
    residual: &[i32],
    table: &[u16],
    matrix: &[i16],
    destination: &mut [u16],
) {
    let mut place = 99u64;
    let mut second = 99u64;
    let r = reader_c::xt_merge(
        set(bytes, at, 0),
        set(bytes, at, 1),
        set(bytes, at, 2),
        set(bytes, at, 3),
        number(bytes, at, 4),
        set(bytes, at, 5),
        set(bytes, at, 6),
        set(bytes, at, 7),
        set(bytes, at, 8),
        set(bytes, at, 9),
        base,
        residual,
        table,
        matrix,
        destination,
        &mut place,
        &mut second,
    );
    write_line(r, place, second, destination, u64::from);
}

// A case whose lists stand one behind the other; where the next case stands.
fn merged(
    bytes: &[u8],
    at: usize,
    base: &mut [i32],
    residual: &mut [i32],
    table: &mut [u16],
    matrix: &mut [i16],
    destination: &mut [u16],
) -> usize {
    let end = bytes.len();
    let first = records::past(end, at, 60);
    let second = records::past(end, first, 4 * base.len());
    let third = records::past(end, second, 4 * residual.len());
    let fourth = records::past(end, third, 2 * table.len());
    let next = records::past(end, fourth, 2 * matrix.len());
    records::values_at(bytes, first, base);
    records::values_at(bytes, second, residual);
    records::sizes_at(bytes, third, table);
    weights_at(bytes, fourth, matrix);
    call_merge(bytes, at, base, residual, table, matrix, destination);
    next
}

fn run_merge(bytes: &[u8], at: usize) -> usize {
    let nb = count(bytes, at, 10, 2048);
    let nr = count(bytes, at, 11, 2048);
    let nt = count(bytes, at, 12, 4097);
    let nm = count(bytes, at, 13, 16);
    let nd = count(bytes, at, 14, 2048);
    let mut base = [0i32; 2048];
    let mut residual = [0i32; 2048];
    let mut table = [0u16; 4097];
    let mut matrix = [0i16; 16];
    let mut destination = [4660u16; 2048];
    merged(
        bytes,
        at,
        &mut base[0..nb],
        &mut residual[0..nr],
        &mut table[0..nt],
        &mut matrix[0..nm],
        &mut destination[0..nd],
    )
}

// The transform of a case, the same way.
fn transformed(
    bytes: &[u8],
    at: usize,
    values: &mut [i32],
    quantisers: &mut [u16],
    destination: &mut [i32],
) -> usize {
    let end = bytes.len();
    let first = records::past(end, at, 20);
    let behind = records::past(end, first, 4 * values.len());
    let next = records::past(end, behind, 2 * quantisers.len());
    records::values_at(bytes, first, values);
    records::sizes_at(bytes, behind, quantisers);
    let mut place = 99u64;
    let mut second = 99u64;
    let r = reader_c::xt_inverse_transform(
        set(bytes, at, 0),
        number(bytes, at, 1),
        values,
        quantisers,
        destination,
        &mut place,
        &mut second,
    );
    write_line(r, place, second, destination, lifted);
    next
}

fn run_transform(bytes: &[u8], at: usize) -> usize {
    let nv = count(bytes, at, 2, 192);
    let nq = count(bytes, at, 3, 65);
    let nd = count(bytes, at, 4, 192);
    let mut values = [0i32; 192];
    let mut quantisers = [0u16; 65];
    let mut destination = [7i32; 192];
    transformed(
        bytes,
        at,
        &mut values[0..nv],
        &mut quantisers[0..nq],
        &mut destination[0..nd],
    )
}

// What the preview of a case owes, the same way.
fn owed(bytes: &[u8], at: usize, quantisers: &mut [u16], destination: &mut [u32]) -> usize {
    let end = bytes.len();
    let first = records::past(end, at, 12);
    let next = records::past(end, first, 2 * quantisers.len());
    records::sizes_at(bytes, first, quantisers);
    let mut place = 99u64;
    let mut second = 99u64;
    let r = reader_c::xt_preview_owes(
        set(bytes, at, 0),
        quantisers,
        destination,
        &mut place,
        &mut second,
    );
    write_line(r, place, second, destination, u64::from);
    next
}

fn run_preview(bytes: &[u8], at: usize) -> usize {
    let nq = count(bytes, at, 1, 65);
    let nd = count(bytes, at, 2, 70);
    let mut quantisers = [0u16; 65];
    let mut destination = [305419896u32; 70];
    owed(bytes, at, &mut quantisers[0..nq], &mut destination[0..nd])
}

// As many cases as the number there says, each of which answers where the next one stands; where they end.
fn run_cases<F: Fn(&[u8], usize) -> usize>(bytes: &[u8], start: usize, run: F) -> usize
    requires { F.IsAlwaysCallable run }
{
    let mut at = records::past(bytes.len(), start, 4);
    for _ in 0..records::number_at(bytes, start) {
        at = run(bytes, at);
    }
    at
}

// Room for the records: an array that a function makes is not written out in the proof of its caller.
fn file_room() -> [u8; 262144] {
    [0u8; 262144]
}

fn main() {
    let mut file = file_room();
    let n = io::read_full(0, &mut file);
    let transforms = run_cases(&file[..n], 0, run_merge);
    let previews = run_cases(&file[..n], transforms, run_transform);
    run_cases(&file[..n], previews, run_preview);
}
