// The samples of a merged picture put into the destination (docs/RULES.md, M1 to M18): pixel by pixel, by whatever curve is set.
#![tactic(auto)]

ghost use Rattle.std.specs.Prelude.{◌≡◌, ◌++◌, ◌<◌, ◌≤◌, length, drop};
ghost use Rattle.merge_rules.specs.declared.Curve.TheVariants.{Straight, Srgb};
ghost use Rattle.merge_rules.specs.Pixels.{single};
ghost use Rattle.pixel.specs.Code.{samples_of};
ghost use Rattle.merge_rules.specs.Settings.{samples};
ghost use Rattle.settings.specs.Code.{Passed, Lending};
ghost use Rattle.merge_rules.specs.Picture.{merged_at, merged_picture};

// Pixel p of the result, for one component.
fn one_at(
    s: merge_rules::Setting,
    pixels: usize,
    base: &[i32],
    residual: &[i32],
    table: &[u16],
    p: usize,
) -> u16
    requires lending { Lending s pixels base.now residual.now table.now }
    requires components_value { (s.components ≡ 1) × (p < pixels) }
    ensures { single result ≡ merged_at s pixels base.now residual.now table.now p }
{
    let b = basis::basis_one(s, table, base[p]);
    let lent = s.residual;
    match lent {
        merge_rules::Residual::Absent => pixel::alone(s.rb, b),
        merge_rules::Residual::Present => pixel::added(
            s.rb,
            b,
            pixel::scaled(s.rb, s.rr, residual[p]),
        ),
    }
}

// Pixel p of the result, for three components.
fn three_at(
    s: merge_rules::Setting,
    pixels: usize,
    base: &[i32],
    residual: &[i32],
    table: &[u16],
    p: usize,
) -> pixel::Samples
    requires lending { Lending s pixels base.now residual.now table.now }
    requires components_value { (s.components ≡ 3) × (p < pixels) }
    ensures { samples_of result ≡ merged_at s pixels base.now residual.now table.now p }
{
    let q = pixels + p;
    let w = pixels + pixels + p;
    let b = basis::basis_three(s, table, base[p], base[q], base[w]);
    let lent = s.residual;
    match lent {
        merge_rules::Residual::Absent => pixel::alone_three(s.rb, b),
        merge_rules::Residual::Present => {
            let r = pixel::residual_three(s, residual[p], residual[q], residual[w]);
            pixel::added_three(s.rb, b, r)
        }
    }
}

// The picture of one component.
fn fill_one(
    s: merge_rules::Setting,
    pixels: usize,
    base: &[i32],
    residual: &[i32],
    table: &[u16],
    destination: &mut [u16],
)
    requires lending { Lending s pixels base.now residual.now table.now }
    requires components_value { (s.components ≡ 1) × (samples s pixels ≤ length destination.old) }
    ensures { destination.new ≡ merged_picture s pixels base.now residual.now table.now
        ++ drop (samples s pixels) destination.old }
{
    for p in 0..pixels {
        let v = one_at(s, pixels, base, residual, table, p);
        destination[p] = v;
    }
}

// The picture of three components, pixel by pixel.
fn fill_three(
    s: merge_rules::Setting,
    pixels: usize,
    base: &[i32],
    residual: &[i32],
    table: &[u16],
    destination: &mut [u16],
)
    requires lending { Lending s pixels base.now residual.now table.now }
    requires components_value { (s.components ≡ 3) × (samples s pixels ≤ length destination.old) }
    ensures { destination.new ≡ merged_picture s pixels base.now residual.now table.now
        ++ drop (samples s pixels) destination.old }
{
    for p in 0..pixels {
        let v = three_at(s, pixels, base, residual, table, p);
        let q = pixels + p;
        let w = pixels + pixels + p;
        destination[p] = v.first;
        destination[q] = v.second;
        destination[w] = v.third;
    }
}

// The picture, by a table that the curve can go by.
fn fill_by(
    s: merge_rules::Setting,
    pixels: usize,
    base: &[i32],
    residual: &[i32],
    table: &[u16],
    destination: &mut [u16],
)
    requires lending { Lending s pixels base.now residual.now table.now }
    requires pixels_in_bounds { samples s pixels ≤ length destination.old }
    ensures { destination.new ≡ merged_picture s pixels base.now residual.now table.now
        ++ drop (samples s pixels) destination.old }
{
    if s.components == 1 {
        fill_one(s, pixels, base, residual, table, destination);
        return;
    }
    fill_three(s, pixels, base, residual, table, destination);
}

// The picture by the inverse sRGB table, which takes the place of the one that is not lent.
fn fill_srgb(
    s: merge_rules::Setting,
    pixels: usize,
    base: &[i32],
    residual: &[i32],
    table: &[u16],
    destination: &mut [u16],
)
    requires passed { Passed s pixels base.now residual.now table.now × (s.curve ≡ Srgb) }
    requires pixels_in_bounds { samples s pixels ≤ length destination.old }
    ensures { destination.new ≡ merged_picture s pixels base.now residual.now table.now
        ++ drop (samples s pixels) destination.old }
{
    let tones = curves::srgb_table();
    fill_by(s, pixels, base, residual, &tones, destination);
}

// The picture by the straight curve. A table of it is made where the picture has twice as many pixels, by which it pays (measured).
fn fill_straight(
    s: merge_rules::Setting,
    pixels: usize,
    base: &[i32],
    residual: &[i32],
    table: &[u16],
    destination: &mut [u16],
)
    requires passed { Passed s pixels base.now residual.now table.now × (s.curve ≡ Straight) }
    requires pixels_in_bounds { samples s pixels ≤ length destination.old }
    ensures { destination.new ≡ merged_picture s pixels base.now residual.now table.now
        ++ drop (samples s pixels) destination.old }
{
    if pixels < rounding::power(9 + s.rh) as usize {
        fill_by(s, pixels, base, residual, table, destination);
        return;
    }
    let mut tones = [0u16; 4096];
    curves::make_tones(s.rb, s.rh, &mut tones);
    fill_by(
        basis::by_table(s),
        pixels,
        base,
        residual,
        &tones,
        destination,
    );
}

// The picture by whatever curve is set.
pub fn fill(
    s: merge_rules::Setting,
    pixels: usize,
    base: &[i32],
    residual: &[i32],
    table: &[u16],
    destination: &mut [u16],
)
    requires passed { Passed s pixels base.now residual.now table.now }
    requires pixels_in_bounds { samples s pixels ≤ length destination.old }
    ensures { destination.new ≡ merged_picture s pixels base.now residual.now table.now
        ++ drop (samples s pixels) destination.old }
{
    let curve = s.curve;
    match curve {
        merge_rules::Curve::Straight => fill_straight(
            s,
            pixels,
            base,
            residual,
            table,
            destination,
        ),
        merge_rules::Curve::Table => fill_by(s, pixels, base, residual, table, destination),
        merge_rules::Curve::Srgb => fill_srgb(s, pixels, base, residual, table, destination),
    }
}
