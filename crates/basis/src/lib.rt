// The base of one pixel (docs/RULES.md, M9 to M15): steps 1 to 3 of the merge, each a function or some.
#![tactic(auto)]

ghost use Rattle.std.specs.Prelude.{◌≡◌, ◌≤◌, nat_abs};
ghost use Rattle.merge_rules.specs.Near.{clip, top};
ghost use Rattle.merge_rules.specs.Curves.{curved};
ghost use Rattle.curves.specs.Code.{There};
ghost use Rattle.merge_rules.specs.declared.Curve.TheVariants.{Table};
ghost use Rattle.merge_rules.specs.Pixels.{single, triple};
ghost use Rattle.basis.specs.Code.{three_of, Bounded, Ready};
ghost use Rattle.merge_rules.specs.Steps.{tinted, transform, recolour, first_centre, weighted, step_three, basis, by_curve};

use merge_rules::{Colour, Matrix, Setting};

// A number for each of three components.
#[derive(Clone, Copy)]
pub struct Three {
    pub first: i64,
    pub second: i64,
    pub third: i64,
}

// The same, with a lent table as its curve.
pub fn by_table(s: Setting) -> Setting
    ensures { result ≡ by_curve Table s }
{
    let weights = s.weights;
    let base_transform = s.base_transform;
    let matrix = s.matrix;
    let residual = s.residual;
    let residual_transform = s.residual_transform;
    Setting {
        rb: s.rb,
        rh: s.rh,
        rr: s.rr,
        components: s.components,
        base_transform,
        curve: merge_rules::Curve::Table,
        matrix,
        weights,
        residual,
        residual_transform,
    }
}

// What step 1 takes from Cb and Cr.
fn first_centre(rh: u32) -> i64
    requires { rh ≤ 8 }
    ensures { (result ≡ first_centre rh) × (nat_abs result ≤ 32768) }
{
    rounding::centre_of(rh)
}

// Y and a weight of each colour difference, in millionths, rounded.
fn tinted(l: i64, m: i64, y: i64, cb: i64, cr: i64) -> i64
    requires l_bound { (nat_abs l ≤ 2097152) × (nat_abs m ≤ 2097152) }
    requires y_bound { (nat_abs y ≤ 549755846656) × ((nat_abs cb ≤ 549755846656) × (nat_abs cr ≤ 549755846656)) }
    ensures { (result ≡ tinted l m y cb cr) × (nat_abs result ≤ 6917529027641081857) }
{
    let sum = rounding::row(1000000, l, m, y, cb, cr);
    rounding::whole(sum)
}

// The transform of step 1, which step 4 has too.
fn transform(centre: i64, t: Three) -> Three
    requires { Bounded 549755813888 t × (nat_abs centre ≤ 32768) }
    ensures { (three_of result ≡ transform centre (three_of t)) × Bounded 6917529027641081857 result }
{
    let y = t.first;
    let cb = rounding::less(t.second, centre);
    let cr = rounding::less(t.third, centre);
    let red = tinted(0, 1402000, y, cb, cr);
    let green = tinted(-344136, -714136, y, cb, cr);
    let blue = tinted(1772000, 0, y, cb, cr);
    Three {
        first: red,
        second: green,
        third: blue,
    }
}

// Identity, or the transform.
pub fn recolour(how: Colour, centre: i64, t: Three) -> Three
    requires { Bounded 549755813888 t × (nat_abs centre ≤ 32768) }
    ensures { (three_of result ≡ recolour how centre (three_of t)) × Bounded 6917529027641081857 result }
{
    match how {
        Colour::Identity => t,
        Colour::Transform => transform(centre, t),
    }
}

// The clip of step 1, and step 2. (It takes the three numbers that it needs: a whole setting would be copied for each pixel.)
fn toned(curve: merge_rules::Curve, rb: u32, rh: u32, table: &[u16], v: i64) -> i64
    requires rb_bound { (rb ≤ 8) × (rh ≤ 4) }
    requires there { There curve rh table.now }
    ensures { (result ≡ curved curve rb rh table.now (clip v (top rh))) × (nat_abs result ≤ 4294967296) }
{
    let x = rounding::clip(v, rounding::top_of(rh));
    curves::curved(curve, rb, rh, table, x)
}

// A row of the matrix, from index i on, over three numbers.
fn weighted(s: Setting, i: usize, t: Three) -> i64
    requires { (i ≤ 6) × Bounded 4294967296 t }
    ensures { (result ≡ weighted s.weights i t.first t.second t.third) × (nat_abs result ≤ 1125899906842624) }
{
    let w = s.weights;
    let k = rounding::wide_weight(w[i]);
    let l = rounding::wide_weight(w[i + 1]);
    let m = rounding::wide_weight(w[i + 2]);
    let sum = rounding::row(k, l, m, t.first, t.second, t.third);
    rounding::nearest(sum, 8192)
}

// Step 3.
fn matrixed(s: Setting, t: Three) -> Three
    requires { Bounded 4294967296 t }
    ensures { (three_of result ≡ step_three s (three_of t)) × Bounded 1125899906842624 result }
{
    let matrix = s.matrix;
    match matrix {
        Matrix::None => t,
        Matrix::On => {
            let first = weighted(s, 0, t);
            let second = weighted(s, 3, t);
            let third = weighted(s, 6, t);
            Three {
                first,
                second,
                third,
            }
        }
    }
}

// Steps 1 to 3 for one component.
pub fn basis_one(s: Setting, table: &[u16], y: i32) -> i64
    requires { Ready s table.now }
    ensures { (single result ≡ basis s table.now (single y)) × (nat_abs result ≤ 4294967296) }
{
    let curve = s.curve;
    toned(curve, s.rb, s.rh, table, rounding::wide(y))
}

// Steps 1 to 3 for three components.
pub fn basis_three(s: Setting, table: &[u16], y: i32, cb: i32, cr: i32) -> Three
    requires { Ready s table.now }
    ensures { (three_of result ≡ basis s table.now (triple y cb cr)) × Bounded 1125899906842624 result }
{
    let lent = Three {
        first: rounding::wide(y),
        second: rounding::wide(cb),
        third: rounding::wide(cr),
    };
    let how = s.base_transform;
    let t = recolour(how, first_centre(s.rh), lent);
    let curve = s.curve;
    let first = toned(curve, s.rb, s.rh, table, t.first);
    let second = toned(curve, s.rb, s.rh, table, t.second);
    let third = toned(curve, s.rb, s.rh, table, t.third);
    let base = Three {
        first,
        second,
        third,
    };
    matrixed(s, base)
}
