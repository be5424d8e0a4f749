// The merge to 9 to 16 bits (docs/RULES.md, M1 to M18): a picture of one or three components, and the public call.
#![tactic(auto)]

ghost use Rattle.std.specs.Prelude.{length};
ghost use Rattle.answers.specs.Verdict.{Meets, Tried};
ghost use Rattle.merge_rules.specs.Picture.{merge};
ghost use Rattle.merge.specs.Code.{Tested};

// The tests in their order, for a result of one sample a component and pixel: how many samples that is, or the first refusal.
fn tested(
    s: merge_rules::Setting,
    pixels: usize,
    base: &[i32],
    residual: &[i32],
    table: &[u16],
    room: usize,
) -> Result<usize, answers::Refusal>
    ensures { Tested s pixels base.now residual.now table.now room result }
{
    if !settings::in_ranges(s, pixels) {
        return answers::refuse(20, 0);
    }
    if !settings::plain(s) {
        return answers::refuse(20, 0);
    }
    if !settings::srgb_allowed(s) {
        return answers::refuse(20, 0);
    }
    if !settings::lengths_right(s, pixels, base, residual, table) {
        return answers::refuse(21, 0);
    }
    let large = settings::first_large(table, rounding::top_of(s.rb));
    if let Some(i) = large {
        return answers::refuse(11, i);
    }
    let count = (s.components as usize) * pixels;
    if room < count {
        return answers::refuse(9, count);
    }
    Ok(count)
}

// The tests, then the picture. A refusal may leave anything in the destination.
fn try_merge(
    s: merge_rules::Setting,
    pixels: usize,
    base: &[i32],
    residual: &[i32],
    table: &[u16],
    destination: &mut [u16],
) -> Result<usize, answers::Refusal>
    ensures { Tried 0 (merge s pixels base.now residual.now table.now (length destination.old))
        destination.old destination.new result }
{
    let o = tested(s, pixels, base, residual, table, destination.len());
    if let Err(_) = o {
        return o;
    }
    fills::fill(s, pixels, base, residual, table, destination);
    o
}

// The merge: a number and a place, and the picture or zeros in the destination.
pub fn merge(
    s: merge_rules::Setting,
    pixels: usize,
    base: &[i32],
    residual: &[i32],
    table: &[u16],
    destination: &mut [u16],
) -> answers::Answer
    ensures { Meets 0 (merge s pixels base.now residual.now table.now (length destination.old))
        destination.old destination.new result }
{
    let tried = try_merge(s, pixels, base, residual, table, destination);
    if tried.is_err() {
        destination.fill(0);
    }
    answers::Answer::from(tried)
}
