// What a preview owes to the full picture at each place of a block (docs/RULES.md, V1 to V4): the weights by rows of frequencies, and of one quarter of the block.
#![tactic(auto)]

ghost use Rattle.std.specs.Prelude.{◌≡◌, ◌++◌, ◌+◌, ◌-◌, ◌*◌, ◌^◌, ◌<◌, ◌≤◌, length, get_or, drop};
ghost use Rattle.laws.specs.Apart.{apart_rounded};
ghost use Rattle.answers.specs.Verdict.{Meets, Tried};
ghost use Rattle.transform_rules.specs.Zigzag.{zigzag_order};
ghost use Rattle.preview_rules.specs.Owed.{owed_block};
ghost use Rattle.preview_rules.specs.Call.{preview_owes};
ghost use Rattle.previews.specs.Code.{magnitude, magnitude_table, row_table, along, reach_table, quarter, fold, unfolded, Quantised, Few};

use answers::{Answer, Refusal};

// cos(m pi/16) in 8192ths, m 1 to 7.
const COS1: u64 = 8035;

const COS2: u64 = 7568;

const COS3: u64 = 6811;

const COS4: u64 = 5793;

const COS5: u64 = 4551;

const COS6: u64 = 3135;

const COS7: u64 = 1598;

// |K(x,u)| at 8x + u for x 0 to 3: |K(7-x,u)| is the same.
const MAGNITUDES: [u64; 32] = [
    COS4, COS1, COS2, COS3, COS4, COS5, COS6, COS7, COS4, COS3, COS6, COS7, COS4, COS1, COS2, COS5,
    COS4, COS5, COS6, COS1, COS4, COS7, COS2, COS3, COS4, COS7, COS2, COS5, COS4, COS3, COS6, COS1,
];

// |K(x,u)|. The tables are lent: a constant array is made anew wherever it is named.
fn magnitude(table: &[u64], x: usize, u: usize) -> u64
    requires { (table.now ≡ magnitude_table) × ((x < 4) × (u < 8)) }
    ensures { result ≡ magnitude x u }
{
    let i = x * 8 + u;
    table[i]
}

// The quantisers row by row.
fn fill_rows(order: &[usize], quantisers: &[u16], rows: &mut [u64])
    requires { (order.now ≡ zigzag_order) × (Quantised quantisers.now × (length rows.old ≡ 64)) }
    ensures { rows.new ≡ row_table quantisers.now }
{
    for (p, &z) in order.iter().enumerate() {
        rows[p] = quantisers[z] as u64;
    }
}

// |K(x,k)| times number k of row v.
fn term(table: &[u64], numbers: &[u64], x: usize, v: usize, k: usize) -> u64
    requires table_value { (table.now ≡ magnitude_table) × Few numbers.now }
    requires x_bound { (x < 4) × ((k < 8) × (v * 8 + 8 ≤ length numbers.now)) }
    ensures { result ≡ magnitude x k * get_or numbers.now (v * 8 + k) 0 }
{
    let i = v * 8 + k;
    magnitude(table, x, k) * numbers[i]
}

// The magnitudes of column x along row v of the numbers.
fn along(table: &[u64], numbers: &[u64], x: usize, v: usize) -> u64
    requires table_value { (table.now ≡ magnitude_table) × Few numbers.now }
    requires x_bound { (x < 4) × (v * 8 + 8 ≤ length numbers.now) }
    ensures { result ≡ along numbers.now x v }
{
    let mut sum: u64 = 0;
    for k in 0..8 {
        sum += term(table, numbers, x, v, k);
    }
    sum
}

// What each row frequency brings to the first four columns.
fn fill_reaches(table: &[u64], rows: &[u64], reaches: &mut [u64])
    requires table_value { (table.now ≡ magnitude_table) × Few rows.now }
    requires rows_len { (length rows.now ≡ 64) × (length reaches.old ≡ 32) }
    ensures { reaches.new ≡ reach_table rows.now }
{
    for (p, reach) in reaches.iter_mut().enumerate() {
        *reach = along(table, rows, p / 8, p % 8);
    }
}

// What a place of this weight owes, d being 2^left.
fn owed_by(d: u64, weight: u64) -> u32
    requires { (1 ≤ d) × ((d ≤ 16) × (weight ≤ 1095216660480)) }
    ensures { result ≡ apart_rounded d ((d - 1) * weight) (2 ^ 28) }
{
    let error = 2 * ((d - 1) * weight);
    let halves = (d + 1) * 268435456;
    ((error + halves - 1) / 536870912) as u32
}

// What each place of the first quarter owes, row by row.
fn fill_quarter(table: &[u64], reaches: &[u64], d: u64, owed: &mut [u32])
    requires table_value { (table.now ≡ magnitude_table) × (Few reaches.now × (length reaches.now ≡ 32)) }
    requires le_d { (1 ≤ d) × ((d ≤ 16) × (length owed.old ≡ 16)) }
    ensures { owed.new ≡ quarter d reaches.now }
{
    for (p, place) in owed.iter_mut().enumerate() {
        let w = along(table, reaches, p / 4, p % 4);
        *place = owed_by(d, w);
    }
}

// The row or column of the first four that owes as much.
fn fold(i: usize) -> usize
    requires { i < 8 }
    ensures { result ≡ fold i }
{
    if i < 4 {
        return i;
    }
    7 - i
}

// What each place owes, from the first quarter.
fn write_owed(owed: &[u32], destination: &mut [u32])
    requires { (length owed.now ≡ 16) × (64 ≤ length destination.old) }
    ensures { destination.new ≡ unfolded owed.now ++ drop 64 destination.old }
{
    for p in 0..64 {
        let i = fold(p / 8) * 4 + fold(p % 8);
        destination[p] = owed[i];
    }
}

// What each place of the first quarter owes, from the quantisers, with the tables made once.
fn first_quarter(left: usize, quantisers: &[u16], owed: &mut [u32])
    requires { (left ≤ 4) × (Quantised quantisers.now × (length owed.old ≡ 16)) }
    ensures { owed.new ≡ quarter (2 ^ left) (reach_table (row_table quantisers.now)) }
{
    let table = MAGNITUDES;
    let order = transform::zigzag_order();
    let mut rows = [0u64; 64];
    let mut reaches = [0u64; 32];
    fill_rows(&order, quantisers, &mut rows);
    fill_reaches(&table, &rows, &mut reaches);
    fill_quarter(&table, &reaches, 1 << left, owed);
}

// What a block owes.
fn write_block(left: usize, quantisers: &[u16], destination: &mut [u32])
    requires { (left ≤ 4) × (Quantised quantisers.now × (64 ≤ length destination.old)) }
    ensures { destination.new ≡ owed_block left quantisers.now ++ drop 64 destination.old }
{
    let mut owed = [0u32; 16];
    first_quarter(left, quantisers, &mut owed);
    write_owed(&owed, destination);
}

// The call before a refusal's zeros.
fn try_preview_owes(
    left: u32,
    quantisers: &[u16],
    destination: &mut [u32],
) -> Result<usize, Refusal>
    ensures { Tried 0 (preview_owes left quantisers.now (length destination.old))
        destination.old destination.new result }
{
    if 4 < left {
        return answers::refuse(20, 0);
    }
    if quantisers.len() != 64 {
        return answers::refuse(21, 0);
    }
    let bad = transform::first_bad_quantiser(quantisers);
    if let Some(index) = bad {
        return answers::refuse(22, index);
    }
    if destination.len() < 64 {
        return answers::refuse(9, 64);
    }
    write_block(left as usize, quantisers, destination);
    Ok(64)
}

// How far a preview can be from the full picture at each place of a block, in samples, with so many planes left.
pub fn preview_owes(left: u32, quantisers: &[u16], destination: &mut [u32]) -> Answer
    ensures { Meets 0 (preview_owes left quantisers.now (length destination.old))
        destination.old destination.new result }
{
    let outcome = try_preview_owes(left, quantisers, destination);
    if outcome.is_err() {
        destination.fill(0);
    }
    Answer::from(outcome)
}
