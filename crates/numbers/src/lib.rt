// The sequence numbers of the packets of one type and instance: which is the smallest that stands twice (6, docs/RULES.md, P7).
// The search goes by windows of numbers, from the smallest on, each with as many packets at most as a small array holds.
#![tactic(auto)]

ghost use Rattle.std.specs.Prelude.{◌≡◌, cond, ℕ, ◌+◌, ◌≤◌, ◌<◌, length, take, drop, eqb, Some, None};
ghost use Rattle.box_rules.specs.Numbers.{numbers_from, count, least, first_twice, between};
ghost use Rattle.numbers.specs.Code.{chosen, TwiceIn};
ghost use Rattle.box_rules.specs.Numbers.{within as Numbers·within};

use packets::{Mine, Sought};

fn within(lo: usize, hi: usize, x: usize) -> bool
    ensures { result ≡ Numbers·within lo hi x }
{
    lo <= x && x < hi
}

fn tick(n: usize, flag: bool) -> usize
    requires { n < 9223372036854775808 }
    ensures { (result ≡ cond flag (n + 1) n) × (result ≤ n + 1) }
{
    if flag { n + 1 } else { n }
}

// How often q stands among numbers in hand, from an index on.
fn stands_from(held: &[u32], from: usize, q: u32) -> usize
    ensures { result ≡ count q (drop from held.now) }
{
    let mut n: usize = 0;
    for i in from..held.len() {
        n = tick(n, held[i] == q);
    }
    n
}

// The lower of a number found before and q, which counts if it stands again.
fn lower(w: Option<usize>, q: usize, again: usize) -> Option<usize>
    ensures { result ≡ least w (cond (eqb again 0) None (Some q)) }
{
    if again == 0 {
        return w;
    }
    match w {
        None => Some(q),
        Some(a) => { if a < q { Some(a) } else { Some(q) } }
    }
}

// The smallest number in hand that stands twice.
fn least_twice(held: &[u32]) -> Option<usize>
    ensures { result ≡ first_twice held.now }
{
    let mut w = None;
    for (i, &q) in held.iter().enumerate() {
        w = lower(w, q as usize, stands_from(held, i + 1, q));
    }
    w
}

// How many packets have a number from lo on and below hi.
fn count_between(sought: Sought, lo: usize, hi: usize) -> usize
    ensures { result ≡ between lo hi (numbers_from sought.entry.file.now sought.entry.kind sought.entry.instance 2) }
{
    let mut at: usize = 2;
    let mut n: usize = 0;
    while let Some(Mine { head, next, .. }) = sought.next_from(at) {
        n = tick(n, within(lo, hi, head.number as usize));
        at = next;
    }
    n
}

fn past(m: usize, x: u32) -> usize
    ensures lower_bound { (m ≤ result) × (x < result) }
    ensures upper_bound { m ≤ 4294967296 → result ≤ 4294967296 }
{
    let y = x as usize;
    if m <= y {
        return y + 1;
    }
    m
}

// A number that is above each number of a packet.
fn past_all(sought: Sought) -> usize
    ensures upper_bound { result ≤ 4294967296 }
    ensures by_index { (q : ℕ) → result ≤ q → count q (numbers_from sought.entry.file.now sought.entry.kind sought.entry.instance 2) ≡ 0 }
{
    let mut at: usize = 2;
    let mut m: usize = 0;
    while let Some(Mine { head, next, .. }) = sought.next_from(at) {
        m = past(m, head.number);
        at = next;
    }
    m
}

// Where the window that begins at lo ends: as far on, up to `top`, as it has no more packets than `cap`; one number at least.
fn window_end(sought: Sought, lo: usize, top: usize, cap: usize) -> usize
    requires { (lo < top) × (top ≤ 4294967296) }
    ensures lower_bound { (lo < result) × (result ≤ top) }
    ensures instance_bound { (result ≡ lo + 1 → ⊥) → between lo result (numbers_from sought.entry.file.now sought.entry.kind sought.entry.instance 2) ≤ cap }
{
    if count_between(sought, lo, top) <= cap {
        return top;
    }
    let mut good = lo + 1;
    let mut bad = top;
    // A while: each step halves what lies between.
    while good + 1 < bad {
        let middle = good + (bad - good) / 2;
        if count_between(sought, lo, middle) <= cap {
            good = middle;
        } else {
            bad = middle;
        }
    }
    good
}

// Takes the numbers from lo on and below hi in hand, in file order, and answers how many.
fn gather(sought: Sought, lo: usize, hi: usize, held: &mut [u32]) -> usize
    requires { between lo hi (numbers_from sought.file.now sought.kind sought.instance 2) ≤ length held.old }
    ensures { (take result held.new ≡ chosen lo hi (numbers_from sought.entry.file.now sought.entry.kind sought.entry.instance 2)) × (result ≤ length held.old) }
{
    let mut at: usize = 2;
    let mut k: usize = 0;
    while let Some(Mine { head, next, .. }) = sought.next_from(at) {
        let number = head.number;
        if within(lo, hi, number as usize) {
            held[k] = number;
            k += 1;
        }
        at = next;
    }
    k
}

// The smallest number of a window that stands twice.
fn twice_in(sought: Sought, lo: usize, hi: usize, held: &mut [u32]) -> Option<usize>
    requires { (lo < hi) × (hi ≤ 4294967296) × ((hi ≡ lo + 1 → ⊥) → between lo hi (numbers_from sought.file.now sought.kind sought.instance 2) ≤ length held.old) }
    ensures { TwiceIn lo hi (numbers_from sought.entry.file.now sought.entry.kind sought.entry.instance 2) result }
{
    if hi == lo + 1 {
        if count_between(sought, lo, hi) <= 1 {
            return None;
        }
        return Some(lo);
    }
    let k = gather(sought, lo, hi, held);
    least_twice(&held[..k])
}

// The smallest sequence number that stands twice, with an array that takes the numbers of a window.
fn twice_by(sought: Sought, held: &mut [u32]) -> Option<usize>
    ensures { result ≡ first_twice (numbers_from sought.entry.file.now sought.entry.kind sought.entry.instance 2) }
{
    let top = past_all(sought);
    let mut lo: usize = 0;
    // A while: the windows are of varying width.
    while lo < top {
        let hi = window_end(sought, lo, top, held.len());
        match twice_in(sought, lo, hi, held) {
            Some(q) => {
                return Some(q);
            }
            None => {
                lo = hi;
            }
        }
    }
    None
}

// The smallest sequence number that stands twice.
pub fn first_twice(sought: Sought) -> Option<usize>
    ensures { result ≡ first_twice (numbers_from sought.entry.file.now sought.entry.kind sought.entry.instance 2) }
{
    let mut held = [0u32; 16384];
    twice_by(sought, &mut held)
}
