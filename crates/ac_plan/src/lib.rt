// What the AC writer sees in its values (docs/RULES.md, E4 to E8).
#![tactic(auto)]

ghost use Rattle.std.specs.Prelude.{◌≡◌, ◌*◌, ◌≤◌, length};
ghost use Rattle.plane_rules.specs.AcWrite as written;
ghost use Rattle.ac_plan.specs.Code.{kinds_from, kind_blocks, kind_is, still_is, coming_is, Planned};

use ac_tasks::Job;

// A value against its half: its correction bit, a zero that stays, or a new value with its sign.
#[derive(Clone, Copy)]
pub enum Change {
    Kept(bool),
    Still,
    Fresh(bool),
}

// The next new value of a block: the zeros before it, and its sign.
#[derive(Clone, Copy)]
pub struct Coming {
    pub zeros: usize,
    pub positive: bool,
}

// "against their halves (.. AC toward zero)"
pub fn kind_of(value: i32) -> Change
    ensures { kind_is result ≡ written.kind_of value }
{
    if value == 0 {
        return Change::Still;
    }
    if value == 1 {
        return Change::Fresh(true);
    }
    if value == -1 {
        return Change::Fresh(false);
    }
    Change::Kept(value % 2 != 0)
}

// 1 for a zero. (A count and no branch: what stands between two new values is hard to foresee.)
fn zero_is(value: i32) -> usize
    ensures { (result ≡ still_is (written.kind_of value)) × (result ≤ 1) }
{
    if value == 0 {
        return 1;
    }
    0
}

// The next new value of a block, from a position on.
pub fn ahead_of(block: &[i32], from: usize) -> Option<Coming>
    ensures { coming_is result ≡ written.ahead (kinds_from block.now from) }
{
    let mut zeros = 0;
    for i in from..block.len() {
        let value = block[i];
        if value == 1 {
            return Some(Coming {
                zeros,
                positive: true,
            });
        }
        if value == -1 {
            return Some(Coming {
                zeros,
                positive: false,
            });
        }
        zeros += zero_is(value);
    }
    None
}

// How many blocks, from the first on, have no new value.
fn quiet_of(later: &[i32], blocks: usize) -> usize
    requires { length later.now ≡ 63 * blocks }
    ensures { (result ≡ written.quiet (kind_blocks blocks later.now)) × (result ≤ blocks) }
{
    for n in 0..blocks {
        let at = 63 * n;
        let end = at + 63;
        if let Some(_) = ahead_of(&later[at..end], 0) {
            return n;
        }
    }
    blocks
}

// "the longest end run", "directly after the last new value"; "the 16-zero code only before a later new value"
pub fn plan(block: &[i32], i: usize, later: &[i32], blocks: usize) -> Job
    requires { (length later.now ≡ 63 * blocks) × (blocks ≤ 1024) }
    ensures { Planned result (written.plan (kinds_from block.now i) (kind_blocks blocks later.now)) }
{
    match ahead_of(block, i) {
        None => Job::Ended(quiet_of(later, blocks)),
        Some(Coming { zeros, positive }) => {
            if zeros < 16 {
                return Job::Set(zeros, positive);
            }
            Job::Leave(15)
        }
    }
}
