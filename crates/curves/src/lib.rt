// The base curve of the merge's step 2: straight, by a lent table, or by the inverse sRGB table.
#![tactic(auto)]

ghost use Rattle.std.specs.Prelude.{◌≡◌, ◌+◌, ◌^◌, ◌<◌, ◌≤◌, pos, nat_abs, length, get_or};
ghost use Rattle.merge_rules.specs.Near.{top};
ghost use Rattle.merge_rules.specs.Srgb.{srgb};
ghost use Rattle.merge_rules.specs.Curves.{straight, curved};
ghost use Rattle.curves.specs.Code.{Tones, There};

use merge_rules::Curve;

// The straight curve.
fn straight(rb: u32, rh: u32, x: u16) -> i64
    requires { (rb ≤ 8) × (rh ≤ 4) }
    ensures { (result ≡ straight rb rh x) × (nat_abs result ≤ 4294967296) }
{
    let product = (x as u32) * rounding::top_of(rb);
    rounding::nearest(rounding::wide_count(product), rounding::top_of(rh))
}

// The inverse sRGB table.
const SRGB: [u16; 256] = [
    0, 20, 40, 60, 80, 99, 119, 139, 159, 179, 199, 219, 241, 264, 288, 313, 340, 367, 396, 427,
    458, 491, 526, 562, 599, 637, 677, 718, 761, 805, 851, 898, 947, 997, 1048, 1101, 1156, 1212,
    1270, 1330, 1391, 1453, 1517, 1583, 1651, 1720, 1790, 1863, 1937, 2013, 2090, 2170, 2250, 2333,
    2418, 2504, 2592, 2681, 2773, 2866, 2961, 3058, 3157, 3258, 3360, 3464, 3570, 3678, 3788, 3900,
    4014, 4129, 4247, 4366, 4488, 4611, 4736, 4864, 4993, 5124, 5257, 5392, 5530, 5669, 5810, 5953,
    6099, 6246, 6395, 6547, 6700, 6856, 7014, 7174, 7335, 7500, 7666, 7834, 8004, 8177, 8352, 8528,
    8708, 8889, 9072, 9258, 9445, 9635, 9828, 10022, 10219, 10417, 10619, 10822, 11028, 11235,
    11446, 11658, 11873, 12090, 12309, 12530, 12754, 12980, 13209, 13440, 13673, 13909, 14146,
    14387, 14629, 14874, 15122, 15371, 15623, 15878, 16135, 16394, 16656, 16920, 17187, 17456,
    17727, 18001, 18277, 18556, 18837, 19121, 19407, 19696, 19987, 20281, 20577, 20876, 21177,
    21481, 21787, 22096, 22407, 22721, 23038, 23357, 23678, 24002, 24329, 24658, 24990, 25325,
    25662, 26001, 26344, 26688, 27036, 27386, 27739, 28094, 28452, 28813, 29176, 29542, 29911,
    30282, 30656, 31033, 31412, 31794, 32179, 32567, 32957, 33350, 33745, 34143, 34544, 34948,
    35355, 35764, 36176, 36591, 37008, 37429, 37852, 38278, 38706, 39138, 39572, 40009, 40449,
    40891, 41337, 41785, 42236, 42690, 43147, 43606, 44069, 44534, 45002, 45473, 45947, 46423,
    46903, 47385, 47871, 48359, 48850, 49344, 49841, 50341, 50844, 51349, 51858, 52369, 52884,
    53401, 53921, 54445, 54971, 55500, 56032, 56567, 57105, 57646, 58190, 58737, 59287, 59840,
    60396, 60955, 61517, 62082, 62650, 63221, 63795, 64372, 64952, 65535,
];

// The inverse sRGB table, to be lent like any other: a constant array is built anew wherever it is named.
pub fn srgb_table() -> [u16; 256]
    ensures { result ≡ srgb }
{
    SRGB
}

// The straight curve at a number of the base's range.
fn tone(rb: u32, rh: u32, x: u16) -> u16
    requires { (rb ≤ 8) × ((rh ≤ 4) × (x ≤ top rh)) }
    ensures { pos result ≡ straight rb rh x }
{
    straight(rb, rh, x) as u16
}

// The straight curve as a table, which is made once for a picture.
pub fn make_tones(rb: u32, rh: u32, tones: &mut [u16])
    requires { (rb ≤ 8) × ((rh ≤ 4) × (2 ^ (8 + rh) ≤ length tones.old)) }
    ensures { Tones rb rh (2 ^ (8 + rh)) tones.new }
{
    let entries = rounding::power(8 + rh) as usize;
    for x in 0..entries {
        let t = tone(rb, rh, x as u16);
        tones[x] = t;
    }
}

// An entry of a lent table.
fn entry(table: &[u16], x: u16) -> u16
    requires { x < length table.now }
    ensures { result ≡ get_or table.now x 0 }
{
    let i = x as usize;
    table[i]
}

// Step 2 at one number, where the table of the curve is there.
pub fn curved(curve: Curve, rb: u32, rh: u32, table: &[u16], x: u16) -> i64
    requires rb_bound { (rb ≤ 8) × ((rh ≤ 4) × (x ≤ top rh)) }
    requires there { There curve rh table.now }
    ensures { (result ≡ curved curve rb rh table.now x) × (nat_abs result ≤ 4294967296) }
{
    match curve {
        Curve::Straight => straight(rb, rh, x),
        Curve::Table => rounding::wide_count(entry(table, x) as u32),
        Curve::Srgb => rounding::wide_count(entry(table, x) as u32),
    }
}
