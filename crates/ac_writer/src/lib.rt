// AC planes written (docs/RULES.md, E1 to E11): one pass through the blocks, position by position.
#![tactic(auto)]

ghost use Rattle.std.specs.Prelude.{◌≡◌, Bool, true, ℕ, ◌+◌, ◌*◌, ◌^◌, ◌≤◌, ◌<◌, length, Option, None, Some};
ghost use Rattle.answers.specs.Verdict.{unless, fitting, Meets, Tried};
ghost use Rattle.bit_putter.specs.Code.{Sound};
ghost use Rattle.bit_rules.specs.Table.{Table, table, good_table};
ghost use Rattle.plane_rules.specs.Task as task;
ghost use Rattle.plane_rules.specs.AcWrite as written;
ghost use Rattle.ac_tasks.specs.Code.{task_of, open_of};
ghost use Rattle.ac_plan.specs.Code.{kinds_from, kind_blocks};
ghost use Rattle.ac_pen.specs.Code.{PenReady, Coded, Known, Told};
ghost use Rattle.ac_writer.specs.Code.{new_pen, Begins, Carries, Works, Moves};

use ac_pen::Pen;
use ac_plan::Change;
use ac_tasks::Job;
use answers::{Answer, Refusal};
use bit_putter::Putter;
use levels::Part;

// What goes from position to position: the pen, and the task that is open.
#[derive(Clone, Copy)]
pub struct State {
    pub pen: Pen,
    pub task: Option<Job>,
}

// The task at a position, told.
#[derive(Clone, Copy)]
pub struct Begun {
    pub pen: Pen,
    pub job: Job,
}

// The putter behind some corrections, and the next position.
#[derive(Clone, Copy)]
pub struct Gone {
    pub putter: Putter,
    pub at: usize,
}

// The pen behind a task, the next position, and what is open there.
#[derive(Clone, Copy)]
pub struct Moved {
    pub pen: Pen,
    pub at: usize,
    pub task: Option<Job>,
}

fn went_on(g: Gone, lack: Option<usize>, task: Option<Job>) -> Moved
    ensures { result ≡ record { pen = record { putter = g.putter; lack = lack }; at = g.at; task = task } }
{
    let putter = g.putter;
    let pen = Pen { putter, lack };
    Moved {
        pen,
        at: g.at,
        task,
    }
}

// Corrections from a position on: so many zeros and new values are passed, and one more. (No task is kept from position to position: a copied enum is slow.)
fn walk(destination: &mut [u8], p: Putter, zeros: usize, from: usize, block: &[i32]) -> Gone
    requires sound { (Sound p) × (p.at < 2 ^ 61) }
    requires from_in_bounds { (from < length block.now) × (length block.now ≤ 63) }
    ensures { ((sign : Option Bool)
        → Carries destination.old destination.new p result.putter block.now (Some (task.walk zeros sign)) None from result.at)
        × (from < result.at) }
{
    let mut q = p;
    let mut n = zeros;
    for i in from..block.len() {
        if let Change::Kept(bit) = ac_plan::kind_of(block[i]) {
            q = bit_putter::put_bit(destination, q, bit);
        } else if n == 0 {
            return Gone {
                putter: q,
                at: i + 1,
            };
        } else {
            n -= 1;
        }
    }
    Gone {
        putter: q,
        at: block.len(),
    }
}

// The rest of a block in an end run: corrections alone.
fn rest(destination: &mut [u8], p: Putter, from: usize, block: &[i32]) -> Gone
    requires sound { (Sound p) × (p.at < 2 ^ 61) }
    requires from_in_bounds { (from < length block.now) × (length block.now ≤ 63) }
    ensures { ((n : ℕ)
        → Carries destination.old destination.new p result.putter block.now (Some (task.ended n)) (Some (task.ended n)) from result.at)
        × (from < result.at) }
{
    let mut q = p;
    for i in from..block.len() {
        if let Change::Kept(bit) = ac_plan::kind_of(block[i]) {
            q = bit_putter::put_bit(destination, q, bit);
        }
    }
    Gone {
        putter: q,
        at: block.len(),
    }
}

// A task from a position on.
fn do_job(destination: &mut [u8], pen: Pen, job: Job, from: usize, block: &[i32]) -> Moved
    requires sound { (Sound pen.putter) × (pen.putter.at < 2 ^ 61) }
    requires from_in_bounds { (from < length block.now) × (length block.now ≤ 63) }
    ensures { Works destination.old destination.new pen (task_of job) from block.now result }
{
    let p = pen.putter;
    let lack = pen.lack;
    match job {
        Job::Leave(n) => {
            let g = walk(destination, p, n, from, block);
            went_on(g, lack, None)
        }
        Job::Set(n, _) => {
            let g = walk(destination, p, n, from, block);
            went_on(g, lack, None)
        }
        Job::Ended(n) => {
            let g = rest(destination, p, from, block);
            went_on(g, lack, Some(Job::Ended(n)))
        }
    }
}

// The task at a position, told if none is open.
fn begin(
    destination: &mut [u8],
    entries: &[u32; 256],
    state: State,
    block: &[i32],
    i: usize,
    later: &[i32],
    blocks: usize,
) -> Begun
    requires pen_ready { PenReady state.pen }
    requires known { Known entries.now }
    requires later_len { (length later.now ≡ 63 * blocks) × (blocks ≤ 1024) }
    ensures { (T : Table) → Coded T entries.now
        → Begins T destination.old destination.new state result
        (kinds_from block.now i) (kind_blocks blocks later.now) }
{
    let pen = state.pen;
    let task = state.task;
    match task {
        Some(job) => Begun { pen, job },
        None => {
            let job = ac_plan::plan(block, i, later, blocks);
            let told = ac_pen::emit(destination, entries, pen, job);
            Begun { pen: told, job }
        }
    }
}

// A block: its tasks in order.
fn put_block(
    destination: &mut [u8],
    entries: &[u32; 256],
    state: State,
    block: &[i32],
    later: &[i32],
    blocks: usize,
) -> State
    requires sound { (Sound state.pen.putter) × (state.pen.putter.at < 2 ^ 59) }
    requires known { Known entries.now × (length block.now ≤ 63) }
    requires later_len { (length later.now ≡ 63 * blocks) × (blocks ≤ 1024) }
    ensures { (T : Table) → Coded T entries.now
        → Moves T destination.old destination.new state result
        (written.write_block (open_of state.task) (kinds_from block.now 0) (kind_blocks blocks later.now)) }
{
    let mut s = state;
    let mut i = 0;
    // A while: the position moves by what the task took, not by one.
    while i < block.len() {
        let b = begin(destination, entries, s, block, i, later, blocks);
        let told = b.pen;
        let job = b.job;
        let m = do_job(destination, told, job, i, block);
        i = m.at;
        let next = m.pen;
        let open = m.task;
        s = State {
            pen: next,
            task: open,
        };
    }
    let pen = s.pen;
    let last = s.task;
    let task = ac_tasks::over(last);
    State { pen, task }
}

// The tokens of all blocks.
fn put_blocks(
    destination: &mut [u8],
    counts: &[u8],
    codes: &[u8],
    values: &[i32],
    blocks: usize,
) -> Pen
    requires codes_value { good_table (table counts.now codes.now) ≡ true }
    requires values_len { (length values.now ≡ 63 * blocks) × (blocks ≤ 1024) }
    ensures { Told (table counts.now codes.now)
        destination.old destination.new new_pen result (written.tokens blocks values.now) }
{
    let putter = Putter {
        at: 0,
        held: 0,
        room: 7,
    };
    let pen = Pen { putter, lack: None };
    let mut s = State { pen, task: None };
    let entries = code_entries::code_table(counts, codes);
    for n in 0..blocks {
        let at = 63 * n;
        let end = at + 63;
        let left = blocks - (n + 1);
        s = put_block(
            destination,
            &entries,
            s,
            &values[at..end],
            &values[end..],
            left,
        );
    }
    s.pen
}

// The bytes of all blocks: 19, 9, or how many there are.
fn put_all(
    destination: &mut [u8],
    counts: &[u8],
    codes: &[u8],
    values: &[i32],
    blocks: usize,
) -> Result<usize, Refusal>
    requires codes_value { good_table (table counts.now codes.now) ≡ true }
    requires values_len { (length values.now ≡ 63 * blocks) × (blocks ≤ 1024) }
    ensures { Tried 0 (unless 19 (written.lacking (table counts.now codes.now) (written.tokens blocks values.now))
        (fitting (length destination.old) (written.ac_bytes blocks (table counts.now codes.now) values.now)))
        destination.old destination.new result }
{
    let pen = put_blocks(destination, counts, codes, values, blocks);
    let lack = pen.lack;
    if let Some(v) = lack {
        return answers::refuse(19, v);
    }
    let p = pen.putter;
    let count = bit_putter::put_end(destination, p);
    if destination.len() < count {
        return answers::refuse(9, count);
    }
    Ok(count)
}

// The bytes, or the first refusal.
fn try_write_ac(
    plane: u32,
    blocks: usize,
    counts: &[u8],
    codes: &[u8],
    values: &[i32],
    destination: &mut [u8],
) -> Result<usize, Refusal>
    ensures { Tried 0
        (written.write_ac plane blocks (table counts.now codes.now) values.now (length destination.old))
        destination.old destination.new result }
{
    if !planes::readable(plane, blocks) {
        return answers::refuse(20, 0);
    }
    if !planes::writable(plane) {
        return answers::refuse(28, 0);
    }
    if values.len() != 63 * blocks {
        return answers::refuse(21, 0);
    }
    if !codes::good_table(counts, codes) {
        return answers::refuse(10, 0);
    }
    if let Some(i) = levels::first_outside(Part::Ac, plane as usize, values) {
        return answers::refuse(11, i);
    }
    put_all(destination, counts, codes, values, blocks)
}

// Plane j of AC values of level j, coded against their halves.
pub fn write_ac(
    plane: u32,
    blocks: usize,
    counts: &[u8],
    codes: &[u8],
    values: &[i32],
    destination: &mut [u8],
) -> Answer
    ensures { Meets 0
        (written.write_ac plane blocks (table counts.now codes.now) values.now (length destination.old))
        destination.old destination.new result }
{
    let o = try_write_ac(plane, blocks, counts, codes, values, destination);
    if o.is_err() {
        destination.fill(0);
    }
    Answer::from(o)
}
