// Windows of sequence numbers: where each packet of a window stands, and the smallest number that is missing (7, docs/RULES.md, P8).
#![tactic(auto)]

ghost use Rattle.std.specs.Prelude.{◌≡◌, min, ◌+◌, ◌≤◌, ◌<◌, length, get_or, ltb};
ghost use Rattle.laws.specs.First.{first_fail};
ghost use Rattle.box_rules.specs.Numbers.{numbers_from, missing_from};
ghost use Rattle.windows.specs.Code.{Located, marked};

use packets::{Mine, Sought};

// Notes a position for a number, if it is one of the window's.
fn mark(places: &mut [usize], passed: usize, number: usize, at: usize)
    ensures { places.new ≡ marked passed number at places.old }
{
    if number <= passed {
        return;
    }
    let i = number - 1 - passed;
    if i < places.len() {
        places[i] = at;
    }
}

// Finds where the packets numbered passed + 1, passed + 2, .. stand, as many as there are places, in one walk of the file.
pub fn locate(sought: Sought, passed: usize, places: &mut [usize])
    ensures { Located sought.entry.file.now sought.entry.kind sought.entry.instance passed places.new }
{
    places.fill(0);
    let mut at: usize = 2;
    while let Some(Mine { head, next, .. }) = sought.next_from(at) {
        mark(places, passed, head.number as usize, at);
        at = next;
    }
}

pub fn lesser(a: usize, b: usize) -> usize
    ensures { result ≡ min a b }
{
    a.min(b)
}

// The first of k places that is 0.
fn first_gone(places: &[usize], k: usize) -> Option<usize>
    requires { k ≤ length places.now }
    ensures { result ≡ first_fail k (λ i. ltb 0 (get_or places.now i 0)) }
{
    for i in 0..k {
        if places[i] == 0 {
            return Some(i);
        }
    }
    None
}

// The smallest of 1 to n that is missing, with an array that takes the places of a window.
fn missing_by(sought: Sought, n: usize, places: &mut [usize]) -> Option<usize>
    requires { 0 < length places.old }
    ensures { result ≡ missing_from n 1 (numbers_from sought.entry.file.now sought.entry.kind sought.entry.instance 2) }
{
    let mut passed: usize = 0;
    // A while: the numbers are passed by windows, of which the last may be narrower.
    while passed < n {
        locate(sought, passed, places);
        let k = lesser(n - passed, places.len());
        match first_gone(places, k) {
            Some(i) => {
                return Some(passed + 1 + i);
            }
            None => {
                passed += k;
            }
        }
    }
    None
}

// The smallest of 1 to n that is missing.
pub fn first_missing(sought: Sought, n: usize) -> Option<usize>
    ensures { result ≡ missing_from n 1 (numbers_from sought.entry.file.now sought.entry.kind sought.entry.instance 2) }
{
    let mut places = [0usize; 16384];
    missing_by(sought, n, &mut places)
}
