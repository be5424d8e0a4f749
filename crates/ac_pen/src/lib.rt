// Tokens of an AC plane put by a pen that keeps the first code that the table lacks (docs/RULES.md, E8 to E10).
#![tactic(auto)]

ghost use Rattle.std.specs.Prelude.{◌≡◌, [], ◌∷◌, ◌^◌, ◌≤◌, ◌<◌, Some};
ghost use Rattle.bit_putter.specs.Code.{Sound};
ghost use Rattle.bit_rules.specs.Table.{Table};
ghost use Rattle.plane_rules.specs.Task.{ended};
ghost use Rattle.plane_rules.specs.AcWrite as written;
ghost use Rattle.ac_tasks.specs.Code.{task_of};
ghost use Rattle.ac_plan.specs.Code.{Short};
ghost use Rattle.ac_pen.specs.Code.{first_of, PenReady, Coded, Known, Told};

use ac_tasks::Job;
use bit_putter::Putter;

// The putter, and the first code that the table lacks.
#[derive(Clone, Copy)]
pub struct Pen {
    pub putter: Putter,
    pub lack: Option<usize>,
}

// "19 .. the code's value": the first one stays.
fn or_lacking(lack: Option<usize>, value: u8) -> Option<usize>
    ensures { result ≡ first_of lack (Some value) }
{
    match lack {
        Some(v) => Some(v),
        None => Some(value as usize),
    }
}

// A code, or that the table lacks it.
fn tell_code(destination: &mut [u8], entries: &[u32; 256], pen: Pen, value: u8) -> Pen
    requires pen_ready { PenReady pen }
    requires known { Known entries.now }
    ensures { (T : Table) → Coded T entries.now
        → Told T destination.old destination.new pen result (written.code value ∷ []) }
{
    let p = pen.putter;
    let lack = pen.lack;
    let at = value as usize;
    let entry = entries[at];
    if entry == 0 {
        let first = or_lacking(lack, value);
        return Pen {
            putter: p,
            lack: first,
        };
    }
    let putter = bit_putter::put_digits(destination, p, (entry % 32) as usize, entry / 32);
    Pen { putter, lack }
}

// A bit.
fn tell_bit(destination: &mut [u8], pen: Pen, bit: bool) -> Pen
    requires { (Sound pen.putter) × (pen.putter.at < 2 ^ 61) }
    ensures { (T : Table) → Told T destination.old destination.new pen result (written.raw bit ∷ []) }
{
    let p = pen.putter;
    let lack = pen.lack;
    let putter = bit_putter::put_bit(destination, p, bit);
    Pen { putter, lack }
}

// The highest r, up to 14, with 2^r at most n.
fn class_of(n: usize) -> usize
    ensures { (result ≡ written.class n) × (result ≤ 14) }
{
    let mut m = n;
    for r in 0..14 {
        if m < 2 {
            return r;
        }
        m /= 2;
    }
    14
}

// "a run of 2^r + e blocks": its code, then the r low bits.
fn tell_run(destination: &mut [u8], entries: &[u32; 256], pen: Pen, n: usize) -> Pen
    requires pen_ready { PenReady pen }
    requires known { Known entries.now × (n ≤ 1024) }
    ensures { (T : Table) → Coded T entries.now
        → Told T destination.old destination.new pen result (written.emit (ended n)) }
{
    let r = class_of(n + 1);
    let q = tell_code(destination, entries, pen, (16 * r) as u8);
    let p = q.putter;
    let lack = q.lack;
    let putter = bit_putter::put_digits(destination, p, r, (n + 1) as u32);
    Pen { putter, lack }
}

// The code that tells a task, and the bits behind it.
pub fn emit(destination: &mut [u8], entries: &[u32; 256], pen: Pen, job: Job) -> Pen
    requires pen_ready { PenReady pen }
    requires known { Known entries.now × Short job }
    ensures { (T : Table) → Coded T entries.now
        → Told T destination.old destination.new pen result (written.emit (task_of job)) }
{
    match job {
        Job::Leave(n) => tell_code(destination, entries, pen, (16 * n) as u8),
        Job::Set(n, positive) => {
            let q = tell_code(destination, entries, pen, (16 * n + 1) as u8);
            tell_bit(destination, q, positive)
        }
        Job::Ended(n) => tell_run(destination, entries, pen, n),
    }
}
