// What the numbers that C passes choose for a merge (docs/RULES.md, C5 to C7), and the merge by them.
#![tactic(auto)]

ghost use Rattle.std.specs.Prelude.{◌≡◌, length};
ghost use Rattle.answers.specs.Verdict.{Meets};
ghost use Rattle.merge_rules.specs.Call.{colour_of, curve_of, matrix_of, residual_of, known, matrix_count, weights_of, setting_number, merge_call};

// C5: 0 identity, 1 the transform.
pub fn colour(n: u32) -> merge_rules::Colour
    ensures { result ≡ colour_of n }
{
    match n {
        1 => merge_rules::Colour::Transform,
        _ => merge_rules::Colour::Identity,
    }
}

// C5: 0 straight, 1 the lent table, 2 inverse sRGB.
pub fn curve_of(n: u32) -> merge_rules::Curve
    ensures { result ≡ curve_of n }
{
    match n {
        1 => merge_rules::Curve::Table,
        2 => merge_rules::Curve::Srgb,
        _ => merge_rules::Curve::Straight,
    }
}

// C5: 0 absent, 1 present.
pub fn matrix_of(n: u32) -> merge_rules::Matrix
    ensures { result ≡ matrix_of n }
{
    match n {
        1 => merge_rules::Matrix::On,
        _ => merge_rules::Matrix::None,
    }
}

// C5: 0 absent, 1 present.
pub fn residual_of(n: u32) -> merge_rules::Residual
    ensures { result ≡ residual_of n }
{
    match n {
        1 => merge_rules::Residual::Present,
        _ => merge_rules::Residual::Absent,
    }
}

// C6: whether each number names something.
pub fn known(base: u32, curve: u32, matrix: u32, residual: u32, transform: u32) -> bool
    ensures { result ≡ known base curve matrix residual transform }
{
    if 2 <= base {
        return false;
    }
    if 3 <= curve {
        return false;
    }
    if 2 <= matrix {
        return false;
    }
    if 2 <= residual {
        return false;
    }
    transform < 2
}

// C7: how many numbers a matrix has.
fn matrix_count(m: merge_rules::Matrix) -> usize
    ensures { result ≡ matrix_count m }
{
    match m {
        merge_rules::Matrix::On => 9,
        merge_rules::Matrix::None => 0,
    }
}

// C7: the matrix's numbers, or zeros where there are not nine.
pub fn weights_of(matrix: &[i16]) -> [i16; 9]
    ensures { result ≡ weights_of matrix.now }
{
    if matrix.len() < 9 {
        return [0; 9];
    }
    [
        matrix[0], matrix[1], matrix[2], matrix[3], matrix[4], matrix[5], matrix[6], matrix[7],
        matrix[8],
    ]
}

// C6, C7: 20 or 21 by what only this call tests, or 0.
fn setting_number(named: bool, s: merge_rules::Setting, pixels: usize, matrix: &[i16]) -> u32
    ensures { result ≡ setting_number named s pixels matrix.now }
{
    if !named {
        return 20;
    }
    if !settings::in_ranges(s, pixels) {
        return 20;
    }
    if !settings::plain(s) {
        return 20;
    }
    if !settings::srgb_allowed(s) {
        return 20;
    }
    let m = s.matrix;
    if matrix.len() != matrix_count(m) {
        return 21;
    }
    0
}

// The merge of a setting that was made, or its refusal.
pub fn merge_or_not(
    named: bool,
    s: merge_rules::Setting,
    pixels: usize,
    base: &[i32],
    residual: &[i32],
    table: &[u16],
    matrix: &[i16],
    destination: &mut [u16],
) -> answers::Answer
    ensures { Meets 0 (merge_call named s pixels
        base.now residual.now table.now matrix.now (length destination.old))
        destination.old destination.new result }
{
    let number = setting_number(named, s, pixels, matrix);
    if number != 0 {
        destination.fill(0);
        return answers::Answer {
            number,
            place: 0,
            second: 0,
        };
    }
    merge::merge(s, pixels, base, residual, table, destination)
}
