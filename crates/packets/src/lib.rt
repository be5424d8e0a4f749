// The walk over a file's segments with a quick look at the usual packet, and the packets of one type and instance (docs/RULES.md, W1 to W9, P1 to P4).
#![tactic(auto)]

ghost use Rattle.std.specs.Prelude.{◌≡◌, true, ◌+◌, ◌<◌, length, IfSome};
ghost use Rattle.box_rules.specs.Walk.{step_at, steps_from, walk, walk_from, ending};
ghost use Rattle.box_rules.specs.Walk.{begins as Walk·begins};
ghost use Rattle.box_rules.specs.Packets.{is_mine};
ghost use Rattle.packets.specs.Code.{NextIs, Tagged, Packed, MineHere};

use answers::Refusal;
use box_rules::{Head, Step};

// A packet of a type and instance, with where its payload stands and where to look on.
#[derive(Clone, Copy)]
pub struct Mine {
    pub head: Head,
    pub start: usize,
    pub len: usize,
    pub next: usize,
}

// The packets of a type and instance in a file.
#[derive(Clone, Copy)]
pub struct Sought<'a> {
    pub file: &'a [u8],
    pub kind: u32,
    pub instance: u16,
}

// Whether FF EB stand at a position, and 4A 50 behind a length.
fn marked_here(file: &[u8], at: usize) -> bool
    requires { at + 19 < length file.now }
    ensures { result ≡ true → Tagged file.now at }
{
    file[at] == 255 && file[at + 1] == 235 && file[at + 4] == 74 && file[at + 5] == 80
}

// A quick look at the usual case: the length of the segment where a whole packet in the short form begins at a position with no fill. None says nothing.
fn packet_here(file: &[u8], at: usize) -> Option<usize>
    ensures { IfSome result (λ size. Packed file.now at size) }
{
    let n = file.len();
    if n < 20 {
        return None;
    }
    if n - 20 < at {
        return None;
    }
    if !marked_here(file, at) {
        return None;
    }
    let size = usize::from(segments::be16(file, at + 2));
    if size < 18 {
        return None;
    }
    if n - at - 2 < size {
        return None;
    }
    if segments::be32(file, at + 12) < 8 {
        return None;
    }
    Some(size)
}

// What stands at a position of the file, with the quick look first.
pub fn step_at(file: &[u8], at: usize) -> Step
    ensures { result ≡ step_at file.now at }
{
    match packet_here(file, at) {
        None => segments::full_step(file, at),
        Some(here) => Step::Meet {
            head: segments::head_at(file, at + 1),
            start: at + 20,
            len: here - 18,
            next: at + 2 + here,
        },
    }
}

fn walk_end(file: &[u8], from: usize) -> Result<usize, Refusal>
    ensures { result ≡ ending (steps_from file.now from) }
{
    let mut at = from;
    loop {
        match step_at(file, at) {
            Step::End => {
                return Ok(0);
            }
            Step::Broken(r) => {
                return Err(r);
            }
            Step::Skip(next) => {
                at = next;
            }
            Step::Meet {
                head: _,
                start: _,
                len: _,
                next,
            } => {
                at = next;
            }
        }
    }
}

fn begins(file: &[u8]) -> bool
    ensures { result ≡ Walk·begins file.now }
{
    if file.len() < 2 {
        return false;
    }
    file[0] == 255 && file[1] == 216
}

// How the walk over a file ends, from a position on.
pub fn walk_on(file: &[u8], from: usize) -> Result<usize, Refusal>
    ensures { result ≡ ending (walk_from file.now from) }
{
    if begins(file) {
        walk_end(file, from)
    } else {
        Err(Refusal {
            number: 1,
            place: 0,
            second: 0,
        })
    }
}

// How the walk over a file ends.
pub fn walk_all(file: &[u8]) -> Result<usize, Refusal>
    ensures { result ≡ ending (walk file.now) }
{
    walk_on(file, 2)
}

impl<'a> Sought<'a> {
    // Whether a packet with this head is one of them.
    fn is_mine(self, head: Head) -> bool
        ensures { result ≡ is_mine self.entry.kind self.entry.instance head }
    {
        head.kind == self.kind && head.instance == self.instance
    }

    // The quick look for one of them.
    pub fn here(self, at: usize) -> Option<usize>
        ensures { IfSome result (λ len. MineHere self.entry.file.now self.entry.kind self.entry.instance at len) }
    {
        let len = packet_here(self.file, at)?;
        if self.is_mine(segments::head_at(self.file, at + 1)) {
            Some(len)
        } else {
            None
        }
    }

    // The next of them, from a position on.
    pub fn next_from(self, from: usize) -> Option<Mine>
        ensures { NextIs self.entry.file.now self.entry.kind self.entry.instance from result }
    {
        let mut at = from;
        loop {
            match step_at(self.file, at) {
                Step::End => {
                    return None;
                }
                Step::Broken(_) => {
                    return None;
                }
                Step::Skip(next) => {
                    at = next;
                }
                Step::Meet {
                    head,
                    start,
                    len,
                    next,
                } => {
                    if self.is_mine(head) {
                        return Some(Mine {
                            head,
                            start,
                            len,
                            next,
                        });
                    }
                    at = next;
                }
            }
        }
    }
}
