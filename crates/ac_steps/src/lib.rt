// What a task of an AC plane does at the positions of a block, in reading: corrections, zeros, and the zero behind them (docs/RULES.md, R6 to R13).
#![tactic(auto)]

ghost use Rattle.std.specs.Prelude.{◌≡◌, ◌≤◌, length, Some};
ghost use Rattle.bits.specs.Code.{bits_in};
ghost use Rattle.planes.specs.Code.{Small};
ghost use Rattle.plane_rules.specs.Task as task;
ghost use Rattle.ac_tasks.specs.Code.{task_of};
ghost use Rattle.ac_values.specs.Code.{aim};
ghost use Rattle.ac_steps.specs.Code.{Steps};

use ac_tasks::Job;
use bits::{BitReader, Stop};

// The next position, and the task that is open there.
#[derive(Clone, Copy)]
pub struct Moved {
    pub at: usize,
    pub task: Option<Job>,
}

// A walk from a position on: corrections, so many zeros, and the zero behind them. (No task is kept from position to position: a copied enum is slow.)
fn walk<'a>(
    r: &mut BitReader<'a>,
    zeros: usize,
    leave: bool,
    sign: bool,
    from: usize,
    values: &[i32],
    destination: &mut [i32],
) -> Result<Moved, Stop>
    requires small { Small values.now }
    requires destination_len { (length destination.old ≡ length values.now) × (from ≤ length values.now) }
    ensures { Steps values.now destination.old destination.new (Some (task.walk zeros (aim leave sign)))
        (bits_in r.old) from r.new result }
{
    let mut here = *r;
    let mut n = zeros;
    for i in from..values.len() {
        let v = values[i];
        if v == 0 {
            if n == 0 {
                destination[i] = ac_values::aimed(leave, sign);
                *r = here;
                return Ok(Moved {
                    at: i + 1,
                    task: None,
                });
            }
            destination[i] = 0;
            n -= 1;
        } else {
            destination[i] = ac_values::correct(&mut here, v)?;
        }
    }
    Err(here.stop(16)) // no place left in the block
}

// The rest of a block in an end run: corrections alone.
fn rest<'a>(
    r: &mut BitReader<'a>,
    n: usize,
    from: usize,
    values: &[i32],
    destination: &mut [i32],
) -> Result<Moved, Stop>
    requires small { Small values.now }
    requires destination_len { (length destination.old ≡ length values.now) × (from ≤ length values.now) }
    ensures { Steps values.now destination.old destination.new (Some (task.ended n))
        (bits_in r.old) from r.new result }
{
    let mut here = *r;
    for i in from..values.len() {
        let v = values[i];
        if v == 0 {
            destination[i] = 0;
        } else {
            destination[i] = ac_values::correct(&mut here, v)?;
        }
    }
    *r = here;
    Ok(Moved {
        at: values.len(),
        task: Some(Job::Ended(n)),
    })
}

// A task from a position on.
pub fn do_job<'a>(
    r: &mut BitReader<'a>,
    job: Job,
    from: usize,
    values: &[i32],
    destination: &mut [i32],
) -> Result<Moved, Stop>
    requires small { Small values.now }
    requires destination_len { (length destination.old ≡ length values.now) × (from ≤ length values.now) }
    ensures { Steps values.now destination.old destination.new (Some (task_of job))
        (bits_in r.old) from r.new result }
{
    match job {
        Job::Leave(n) => walk(r, n, true, false, from, values, destination),
        Job::Set(n, sign) => walk(r, n, false, sign, from, values, destination),
        Job::Ended(n) => rest(r, n, from, values, destination),
    }
}
