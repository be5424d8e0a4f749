// Dequantising and the inverse transform of a picture's blocks (docs/RULES.md, T1 to T9).
#![tactic(auto)]

ghost use Rattle.std.specs.Prelude.{◌≡◌, ◌++◌, ◌+◌, ◌*◌, ◌<◌, ◌≤◌, pos, nat_abs, length, take, drop};
ghost use Rattle.answers.specs.Verdict.{Meets, Tried};
ghost use Rattle.transform_rules.specs.Samples.{block_samples};
ghost use Rattle.transform_rules.specs.Zigzag.{zigzag_order};
ghost use Rattle.transform_rules.specs.Picture.{times_quantiser, dequantised, centre, picture, InRange};
ghost use Rattle.transform_rules.specs.Call.{is_quantiser, first_bad_quantiser, inverse_transform};

use answers::{Answer, Refusal};
use levels::Part;

// The zigzag index of row v, column u at 8v + u (T.81, Figure 5).
const ZIGZAG: [usize; 64] = [
    0, 1, 5, 6, 14, 15, 27, 28, 2, 4, 7, 13, 16, 26, 29, 42, 3, 8, 12, 17, 25, 30, 41, 43, 9, 11,
    18, 24, 31, 40, 44, 53, 10, 19, 23, 32, 39, 45, 52, 54, 20, 22, 33, 38, 46, 51, 55, 60, 21, 34,
    37, 47, 50, 56, 59, 61, 35, 36, 48, 49, 57, 58, 62, 63,
];

// The same for other rooms.
pub fn zigzag_order() -> [usize; 64]
    ensures { result ≡ zigzag_order }
{
    ZIGZAG
}

// 2^(7+R).
const CENTRES: [i64; 5] = [128, 256, 512, 1024, 2048];

// The sample that a block without frequencies has.
fn centre(refinement: usize) -> i64
    requires { refinement ≤ 4 }
    ensures { result ≡ centre refinement }
{
    CENTRES[refinement]
}

// A value times its quantiser: any two of them fit.
fn times_quantiser(value: i32, quantiser: u16) -> i64
    ensures { result ≡ times_quantiser value quantiser }
{
    (value as i64) * (quantiser as i64)
}

// The 64 products of a block, row by row. The order is lent: a constant array is made anew wherever it is named.
fn dequantise(order: &[usize], values: &[i32], quantisers: &[u16], block: usize, s: &mut [i64])
    requires order_value { (order.now ≡ zigzag_order) × (length s.old ≡ 64) }
    requires block_in_bounds { (block * 64 + 64 ≤ length values.now) × (length quantisers.now ≡ 64) }
    ensures { s.new ≡ dequantised values.now quantisers.now block }
{
    for (p, &z) in order.iter().enumerate() {
        let i = block * 64 + z;
        let w = times_quantiser(values[i], quantisers[z]);
        s[p] = w;
    }
}

// The samples of one block, at its place.
fn transform_block(
    centre: i64,
    block: usize,
    values: &[i32],
    quantisers: &[u16],
    destination: &mut [i32],
)
    requires in_range { InRange values.now quantisers.now × (nat_abs centre ≤ 2048) }
    requires block_in_bounds { (block * 64 + 64 ≤ length values.now) × (block * 64 + 64 ≤ length destination.old) }
    ensures { destination.new ≡ take (block * 64) destination.old
        ++ block_samples (dequantised values.now quantisers.now block) centre
        ++ drop (block * 64 + 64) destination.old }
{
    let order = ZIGZAG;
    let mut s = [0i64; 64];
    dequantise(&order, values, quantisers, block, &mut s);
    let at = block * 64;
    kernel::write_block(&s, centre, destination, at);
}

// The samples of all blocks.
fn transform_picture(
    refinement: usize,
    blocks: usize,
    values: &[i32],
    quantisers: &[u16],
    destination: &mut [i32],
)
    requires in_range { InRange values.now quantisers.now × (refinement ≤ 4) }
    requires values_len { (length values.now ≡ blocks * 64) × (blocks * 64 ≤ length destination.old) }
    ensures { destination.new ≡ picture refinement blocks values.now quantisers.now
        ++ drop (blocks * 64) destination.old }
{
    let c = centre(refinement);
    for block in 0..blocks {
        transform_block(c, block, values, quantisers, destination);
    }
}

// Whether a quantiser is 1 to 255.
fn is_quantiser(entry: u16) -> bool
    ensures { result ≡ is_quantiser entry }
{
    1 <= entry && entry <= 255
}

// The first index whose quantiser is not 1 to 255.
pub fn first_bad_quantiser(quantisers: &[u16]) -> Option<usize>
    ensures { result ≡ first_bad_quantiser quantisers.now }
{
    for (i, &entry) in quantisers.iter().enumerate() {
        if !is_quantiser(entry) {
            return Some(i);
        }
    }
    None
}

// The call before a refusal's zeros.
fn try_inverse_transform(
    refinement: u32,
    blocks: usize,
    values: &[i32],
    quantisers: &[u16],
    destination: &mut [i32],
) -> Result<usize, Refusal>
    ensures { Tried (pos 0) (inverse_transform refinement blocks values.now quantisers.now (length destination.old))
        destination.old destination.new result }
{
    if 4 < refinement {
        return answers::refuse(20, 0);
    }
    if 1024 < blocks {
        return answers::refuse(20, 0);
    }
    let count = blocks * 64;
    if values.len() != count {
        return answers::refuse(21, 0);
    }
    if quantisers.len() != 64 {
        return answers::refuse(21, 0);
    }
    let bad = first_bad_quantiser(quantisers);
    if let Some(index) = bad {
        return answers::refuse(22, index);
    }
    let level = refinement as usize;
    let outside = levels::first_outside(Part::Whole, level, values);
    if let Some(index) = outside {
        return answers::refuse(11, index);
    }
    if destination.len() < count {
        return answers::refuse(9, count);
    }
    transform_picture(level, blocks, values, quantisers, destination);
    Ok(count)
}

// Dequantising and the inverse transform of a picture's blocks, R being the refinement.
pub fn inverse_transform(
    refinement: u32,
    blocks: usize,
    values: &[i32],
    quantisers: &[u16],
    destination: &mut [i32],
) -> Answer
    ensures { Meets (pos 0) (inverse_transform refinement blocks values.now quantisers.now (length destination.old))
        destination.old destination.new result }
{
    let outcome = try_inverse_transform(refinement, blocks, values, quantisers, destination);
    if outcome.is_err() {
        destination.fill(0);
    }
    Answer::from(outcome)
}
