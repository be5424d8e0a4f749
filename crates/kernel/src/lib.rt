// A block's samples from its 64 products (docs/RULES.md, T7 to T9): the kernel, the double sum, the rounding.
#![tactic(auto)]

ghost use Rattle.std.specs.Prelude.{◌≡◌, ◌++◌, ◌+◌, ◌^◌, ◌<◌, ◌≤◌, pos, nat_abs, length, take, drop};
ghost use Rattle.transform_rules.specs.Cosines.{kernel, kernel_table};
ghost use Rattle.transform_rules.specs.Samples.{product, row_sum, double_sum, rounded, sample, block_samples, Products};

// K(x,u) at 8x + u.
const KERNEL: [i64; 64] = [
    5793, 8035, 7568, 6811, 5793, 4551, 3135, 1598, 5793, 6811, 3135, -1598, -5793, -8035, -7568,
    -4551, 5793, 4551, -3135, -8035, -5793, 1598, 7568, 6811, 5793, 1598, -7568, -4551, 5793, 6811,
    -3135, -8035, 5793, -1598, -7568, 4551, 5793, -6811, -3135, 8035, 5793, -4551, -3135, 8035,
    -5793, -1598, 7568, -6811, 5793, -6811, 3135, 1598, -5793, 8035, -7568, 4551, 5793, -8035,
    7568, -6811, 5793, -4551, 3135, -1598,
];

// K(x,u). The table is lent: a constant array is made anew wherever it is named, which the inner loop cannot afford.
fn kernel(table: &[i64], x: usize, u: usize) -> i64
    requires { (table.now ≡ kernel_table) × ((x < 8) × (u < 8)) }
    ensures { result ≡ kernel x u }
{
    let i = x * 8 + u;
    table[i]
}

// One product of the double sum.
fn product(table: &[i64], s: &[i64], x: usize, y: usize, v: usize, u: usize) -> i64
    requires table_value { (table.now ≡ kernel_table) × Products s.now }
    requires x_bound { (x < 8) × ((y < 8) × ((v < 8) × (u < 8))) }
    ensures { result ≡ product s.now x y v u }
{
    let i = v * 8 + u;
    kernel(table, x, u) * kernel(table, y, v) * s[i]
}

// The products of one row frequency.
fn row_sum(table: &[i64], s: &[i64], x: usize, y: usize, v: usize) -> i64
    requires table_value { (table.now ≡ kernel_table) × Products s.now }
    requires x_bound { (x < 8) × ((y < 8) × (v < 8)) }
    ensures { result ≡ row_sum s.now x y v }
{
    let mut sum: i64 = 0;
    for u in 0..8 {
        sum += product(table, s, x, y, v, u);
    }
    sum
}

// The sum over all 64 products.
fn double_sum(table: &[i64], s: &[i64], x: usize, y: usize) -> i64
    requires table_value { (table.now ≡ kernel_table) × Products s.now }
    requires x_bound { (x < 8) × (y < 8) }
    ensures { result ≡ double_sum s.now x y }
{
    let mut sum: i64 = 0;
    for v in 0..8 {
        sum += row_sum(table, s, x, y, v);
    }
    sum
}

// What rounds to the nearest: half of 2^28.
fn half() -> i64
    ensures { result ≡ pos (2 ^ 27) }
{
    134217728
}

// The one rounding.
fn rounded(sum: i64, centre: i64) -> i32
    requires { (nat_abs sum ≤ 2 ^ 55) × (nat_abs centre ≤ 2048) }
    ensures { result ≡ rounded sum centre }
{
    (((sum + half()) >> 28) + centre) as i32
}

// The sample at row y, column x.
fn sample(table: &[i64], s: &[i64], centre: i64, x: usize, y: usize) -> i32
    requires table_value { (table.now ≡ kernel_table) × Products s.now }
    requires centre_bound { (nat_abs centre ≤ 2048) × ((x < 8) × (y < 8)) }
    ensures { result ≡ sample s.now centre x y }
{
    let sum = double_sum(table, s, x, y);
    rounded(sum, centre)
}

// A block's samples, row by row, into the destination from an index on.
fn write_samples(table: &[i64], s: &[i64], centre: i64, destination: &mut [i32], at: usize)
    requires table_value { (table.now ≡ kernel_table) × Products s.now }
    requires centre_bound { (nat_abs centre ≤ 2048) × (at + 64 ≤ length destination.old) }
    ensures { destination.new ≡ take at destination.old ++ block_samples s.now centre
        ++ drop (at + 64) destination.old }
{
    for p in 0..64 {
        let w = sample(table, s, centre, p % 8, p / 8);
        destination[at + p] = w;
    }
}

// The same, with the kernel's table made once for the block.
pub fn write_block(s: &[i64], centre: i64, destination: &mut [i32], at: usize)
    requires products { Products s.now }
    requires centre_bound { (nat_abs centre ≤ 2048) × (at + 64 ≤ length destination.old) }
    ensures { destination.new ≡ take at destination.old ++ block_samples s.now centre
        ++ drop (at + 64) destination.old }
{
    let table = KERNEL;
    write_samples(&table, s, centre, destination, at);
}
