// How the calls of records came out: what a call must leave, whether it was right, and the tally of each group.
#![tactic(auto)]

ghost use Rattle.std.specs.Prelude.{◌≡◌, ◌-◌, pos, length, eqb};
ghost use Rattle.laws.specs.First.{first_fail};
ghost use Rattle.test_rules.specs.Wanted.{wanted, is_wanted, same_value, right as Wanted·right};
ghost use Rattle.test_rules.specs.Runs.{goes_on, counted as Runs·counted, begun as Runs·begun, next_run};

use answers::Answer;
use test_rules::{Finding, Run};

// What a call must leave at an index: 0 after a refusal, else the byte expected, and behind those the 7 of before. (`number` is a call's for C, by which 0 is done.)
fn wanted_byte(expected: &[u8], number: usize, i: usize) -> u8
    ensures { result ≡ wanted 0 7 expected.now number i }
{
    if number != 0 {
        return 0;
    }
    if i < expected.len() {
        return expected[i];
    }
    7
}

// The first index at which a call left another byte.
pub fn first_wrong_byte(output: &[u8], expected: &[u8], number: usize) -> Option<usize>
    ensures { result ≡ first_fail (length output.now) (is_wanted eqb 0 7 output.now expected.now number) }
{
    for (i, got) in output.iter().enumerate() {
        let want = wanted_byte(expected, number, i);
        if *got != want {
            return Some(i);
        }
    }
    None
}

fn same_value(a: i32, b: i32) -> bool
    ensures { result ≡ same_value a b }
{
    a <= b && b <= a
}

// The same as `wanted_byte` for values.
fn wanted_value(expected: &[i32], number: usize, i: usize) -> i32
    ensures { result ≡ wanted (pos 0) (pos 7) expected.now number i }
{
    if number != 0 {
        return 0;
    }
    if i < expected.len() {
        return expected[i];
    }
    7
}

// The first index at which a call left another value.
pub fn first_wrong_value(output: &[i32], expected: &[i32], number: usize) -> Option<usize>
    ensures { result ≡ first_fail (length output.now) (is_wanted same_value (pos 0) (pos 7) output.now expected.now number) }
{
    for (i, got) in output.iter().enumerate() {
        let want = wanted_value(expected, number, i);
        if !same_value(*got, want) {
            return Some(i);
        }
    }
    None
}

// A call gave this number, place and second place, and nothing that it left is wrong.
pub fn right(a: Answer, number: usize, place: usize, second: usize, wrong: Option<usize>) -> bool
    ensures { result ≡ Wanted·right a number place second wrong }
{
    if a.number as usize != number {
        return false;
    }
    if a.place != place {
        return false;
    }
    if a.second != second {
        return false;
    }
    match wrong {
        Some(_) => false,
        None => true,
    }
}

// One more record of the group.
fn counted(r: Run, good: bool) -> Run
    ensures { result ≡ Runs·counted r good }
{
    let left = less_one(r.left);
    let right = r.right % 1000000;
    let all = r.all % 1000000 + 1;
    if good {
        return Run {
            at: r.at,
            left,
            group: r.group,
            right: right + 1,
            all,
        };
    }
    Run {
        at: r.at,
        left,
        group: r.group,
        right,
        all,
    }
}

fn less_one(n: usize) -> usize
    ensures { result ≡ n - 1 }
{
    if n == 0 {
        return 0;
    }
    n - 1
}

// A group's line.
fn tell(name: &[u8], right: u64, all: u64) {
    io::write_all(1, name);
    io::write_all(1, b": ");
    io::print_decimal(1, right);
    io::write_all(1, b" of ");
    io::print_decimal(1, all);
    io::write_all(1, b" right\n");
}

// Before the first record of a file.
pub fn begun(bytes: &[u8]) -> Run
    ensures { result ≡ Runs·begun bytes.now }
{
    let at = records::number_at(bytes, 4);
    Run {
        at,
        left: records::number_at(bytes, 0),
        group: records::number_at(bytes, at),
        right: 0,
        all: 0,
    }
}

// Whether a record of the same group follows.
fn goes_on(left: usize, group: usize, next: usize) -> bool
    ensures { result ≡ goes_on left group next }
{
    if left == 0 {
        return false;
    }
    group == next
}

// Behind a record that was run. The line of its group is written if it was the last one.
pub fn next_run(bytes: &[u8], r: Run, ran: Finding) -> Run
    ensures { result ≡ next_run bytes.now r ran }
{
    let c = counted(r, ran.good);
    let group = records::number_at(bytes, ran.next);
    if goes_on(c.left, c.group, group) {
        return Run {
            at: ran.next,
            left: c.left,
            group,
            right: c.right,
            all: c.all,
        };
    }
    let name = records::lent(bytes, c.group);
    tell(name, c.right, c.all);
    Run {
        at: ran.next,
        left: c.left,
        group,
        right: 0,
        all: 0,
    }
}
