// Whether a box can be handed out: 4 to 9 in their order (docs/RULES.md, P4 to P9, P12).
#![tactic(auto)]

ghost use Rattle.std.specs.Prelude.{◌≡◌, Err};
ghost use Rattle.answers.specs.Verdict.{refusal};
ghost use Rattle.box_rules.specs.Numbers.{numbers};
ghost use Rattle.box_rules.specs.Box.{assembled, box_bytes};
ghost use Rattle.box_rules.specs.Box.{contents as Box·contents};
ghost use Rattle.scans.specs.Code.{mine_of, Scanned, fault_of};
ghost use Rattle.judging.specs.Code.{ReadyIs};

use answers::Refusal;
use box_rules::Head;
use packets::{Mine, Sought};
use scans::{Fault, Scan};

// A box whose bytes can be handed out: how many packets, how many bytes, and whether the packets stand in order.
#[derive(Clone, Copy)]
pub struct Ready {
    pub n: usize,
    pub total: usize,
    pub ordered: bool,
}

// What is wrong with the sequence numbers of the packets. Packets that stand in order need no search, where none of 1 to n is
// missing none stands twice, and of numbers that rise none does.
fn fault_of(sought: Sought, h: Head, c: Scan) -> Fault
    requires { Scanned (mine_of sought.file.now sought.kind sought.instance) h c }
    ensures { result ≡ fault_of (numbers (mine_of sought.entry.file.now sought.entry.kind sought.entry.instance)) }
{
    if c.ordered {
        return Fault::Fine;
    }
    match windows::first_missing(sought, c.n) {
        None => Fault::Fine,
        Some(m) => {
            if c.rising {
                return Fault::Missing(m);
            }
            match numbers::first_twice(sought) {
                Some(q) => Fault::Twice(q),
                None => Fault::Missing(m),
            }
        }
    }
}

// The stated length less the head of the box.
fn contents(h: Head) -> u64
    ensures { result ≡ Box·contents h }
{
    if h.stated < h.heading {
        0
    } else {
        h.stated - h.heading
    }
}

fn not(number: u32, place: usize) -> Result<Ready, Refusal>
    ensures { result ≡ Err (refusal number place) }
{
    Err(Refusal {
        number,
        place,
        second: 0,
    })
}

// Whether the packets of a type and instance, of which the first has the head h, make a box that fits into so many bytes.
fn checked(sought: Sought, h: Head, c: Scan, room: usize) -> Result<Ready, Refusal>
    requires { Scanned (mine_of sought.file.now sought.kind sought.instance) h c }
    ensures { ReadyIs (mine_of sought.entry.file.now sought.entry.kind sought.entry.instance) room (assembled room h (mine_of sought.entry.file.now sought.entry.kind sought.entry.instance)) result }
{
    let n = c.n;
    let total = c.total;
    let ordered = c.ordered;
    if !c.agree {
        return not(5, 0);
    }
    match fault_of(sought, h, c) {
        Fault::Twice(q) => not(6, q),
        Fault::Missing(q) => not(7, q),
        Fault::Fine => {
            if total as u64 != contents(h) {
                return not(8, total);
            }
            if room < total {
                return not(9, total);
            }
            Ok(Ready { n, total, ordered })
        }
    }
}

// Whether a file has the box of a type and instance, and it fits into so many bytes.
pub fn judged(sought: Sought, room: usize) -> Result<Ready, Refusal>
    ensures { ReadyIs (mine_of sought.entry.file.now sought.entry.kind sought.entry.instance) room (box_bytes sought.entry.file.now sought.entry.kind sought.entry.instance room) result }
{
    match sought.next_from(2) {
        None => match packets::walk_all(sought.file) {
            Err(r) => Err(r),
            Ok(_) => not(4, 0),
        },
        Some(Mine { head, .. }) => {
            let c = scans::scan_all(sought, head);
            match packets::walk_on(sought.file, c.end) {
                Err(r) => Err(r),
                Ok(_) => checked(sought, head, c, room),
            }
        }
    }
}
