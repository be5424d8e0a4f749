// What a merge may be set to and must be lent: the tests behind its refusals 20, 21 and 11.
#![tactic(auto)]

ghost use Rattle.std.specs.Prelude.{◌≡◌, ◌≤◌, length};
ghost use Rattle.laws.specs.First.{first_fail};
ghost use Rattle.merge_rules.specs.Curves.{entries};
ghost use Rattle.merge_rules.specs.Settings.{one_or_three, in_ranges, is_transform, is_on, is_srgb, plain, srgb_allowed, residual_count, lengths_right, entry_right};
ghost use Rattle.settings.specs.Code.{Ranged};

// Whether the transform is set.
fn is_transform(how: merge_rules::Colour) -> bool
    ensures { result ≡ is_transform how }
{
    match how {
        merge_rules::Colour::Identity => false,
        merge_rules::Colour::Transform => true,
    }
}

// Whether the matrix is on.
fn is_on(matrix: merge_rules::Matrix) -> bool
    ensures { result ≡ is_on matrix }
{
    match matrix {
        merge_rules::Matrix::None => false,
        merge_rules::Matrix::On => true,
    }
}

// Whether the curve is the inverse sRGB table.
fn is_srgb(curve: merge_rules::Curve) -> bool
    ensures { result ≡ is_srgb curve }
{
    match curve {
        merge_rules::Curve::Straight => false,
        merge_rules::Curve::Table => false,
        merge_rules::Curve::Srgb => true,
    }
}

// One or three components.
fn one_or_three(components: u32) -> bool
    ensures { result ≡ one_or_three components }
{
    if components == 1 {
        return true;
    }
    components == 3
}

// 20: the ranges of what is set.
pub fn in_ranges(s: merge_rules::Setting, pixels: usize) -> bool
    ensures { result ≡ in_ranges s pixels }
{
    if s.rb < 1 {
        return false;
    }
    if 8 < s.rb {
        return false;
    }
    if 4 < s.rh {
        return false;
    }
    if 4 < s.rr {
        return false;
    }
    if !one_or_three(s.components) {
        return false;
    }
    pixels <= 65536
}

// 20: one component has no transform and no matrix.
pub fn plain(s: merge_rules::Setting) -> bool
    ensures { result ≡ plain s }
{
    if s.components != 1 {
        return true;
    }
    let base = s.base_transform;
    let residual = s.residual_transform;
    let matrix = s.matrix;
    if is_transform(base) {
        return false;
    }
    if is_transform(residual) {
        return false;
    }
    !is_on(matrix)
}

// 20: the inverse sRGB table only at Rh 0 and Rb 8.
pub fn srgb_allowed(s: merge_rules::Setting) -> bool
    ensures { result ≡ srgb_allowed s }
{
    let curve = s.curve;
    if !is_srgb(curve) {
        return true;
    }
    if s.rh != 0 {
        return false;
    }
    s.rb == 8
}

// How many residual samples must be lent, of a picture of so many.
fn residual_count(residual: merge_rules::Residual, count: usize) -> usize
    ensures { result ≡ residual_count residual count }
{
    match residual {
        merge_rules::Residual::Absent => 0,
        merge_rules::Residual::Present => count,
    }
}

// How many entries a lent table must have.
fn table_count(curve: merge_rules::Curve, rh: u32) -> usize
    requires { rh ≤ 4 }
    ensures { result ≡ entries curve rh }
{
    match curve {
        merge_rules::Curve::Straight => 0,
        merge_rules::Curve::Table => rounding::power(8 + rh) as usize,
        merge_rules::Curve::Srgb => 0,
    }
}

// 21: the lengths of what is lent.
pub fn lengths_right(
    s: merge_rules::Setting,
    pixels: usize,
    base: &[i32],
    residual: &[i32],
    table: &[u16],
) -> bool
    requires { Ranged s pixels }
    ensures { result ≡ lengths_right s pixels base.now residual.now table.now }
{
    let count = (s.components as usize) * pixels;
    if base.len() != count {
        return false;
    }
    let lent = s.residual;
    if residual.len() != residual_count(lent, count) {
        return false;
    }
    let curve = s.curve;
    let entries = table_count(curve, s.rh);
    table.len() == entries
}

// 11: the first entry of a table above the most that it may be.
pub fn first_large(table: &[u16], most: u32) -> Option<usize>
    ensures { result ≡ first_fail (length table.now) (entry_right most table.now) }
{
    for (i, &entry) in table.iter().enumerate() {
        if most < entry as u32 {
            return Some(i);
        }
    }
    None
}
