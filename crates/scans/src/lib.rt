// What one pass over the packets of a box sees: how many, how long, whether they agree and in which order their numbers stand (docs/RULES.md, P4, P6 to P9).
#![tactic(auto)]

ghost use Rattle.std.specs.Prelude.{◌≡◌, false, cond, ◌+◌, ◌≤◌, ◌<◌};
ghost use Rattle.box_rules.specs.Walk.{walk, walk_from, ending};
ghost use Rattle.box_rules.specs.Box.{alike as Box·alike};
ghost use Rattle.scans.specs.Code.{mine_of, Scanned, found_more};

use box_rules::Head;
use packets::Sought;

// What one pass over the packets of a type and instance finds. `above` is the number behind the last one, `end` where it stopped.
#[derive(Clone, Copy)]
pub struct Scan {
    pub n: usize,
    pub total: usize,
    pub agree: bool,
    pub ordered: bool,
    pub rising: bool,
    pub above: usize,
    pub end: usize,
}

// What is wrong with the sequence numbers.
#[derive(Clone, Copy)]
pub enum Fault {
    Fine,
    Twice(usize),
    Missing(usize),
}

// The flag, and whether two heads state one length.
fn alike(flag: bool, h: Head, g: Head) -> bool
    ensures { result ≡ cond flag (Box·alike h g) false }
{
    if !flag {
        return false;
    }
    g.stated == h.stated && g.heading == h.heading
}

// The flag, and the test.
fn both(flag: bool, test: bool) -> bool
    ensures { result ≡ cond flag test false }
{
    flag && test
}

// What a pass has found behind one packet more.
fn found_more(s: Scan, h: Head, head: Head, len: usize, next: usize) -> Scan
    requires { (s.n < next) × (s.total + len ≤ next) }
    ensures { result ≡ found_more s h head len next }
{
    let n = s.n + 1;
    let number = head.number as usize;
    Scan {
        n,
        total: s.total + len,
        agree: alike(s.agree, h, head),
        ordered: both(s.ordered, number == n),
        rising: both(s.rising, s.above <= number),
        above: number + 1,
        end: next,
    }
}

// One pass over the packets of a type and instance, of which the first has the head h.
pub fn scan_all(sought: Sought, h: Head) -> Scan
    ensures scanned { Scanned (mine_of sought.entry.file.now sought.entry.kind sought.entry.instance) h result }
    ensures end_value { ending (walk_from sought.entry.file.now result.end) ≡ ending (walk sought.entry.file.now) }
{
    let mut s = Scan {
        n: 0,
        total: 0,
        agree: true,
        ordered: true,
        rising: true,
        above: 0,
        end: 2,
    };
    loop {
        let at = s.end;
        if let Some(here) = sought.here(at) {
            let head = segments::head_at(sought.file, at + 1);
            s = found_more(s, h, head, here - 18, at + 2 + here);
        } else if let Some(mine) = sought.next_from(at) {
            s = found_more(s, h, mine.head, mine.len, mine.next);
        } else {
            return s;
        }
    }
}
