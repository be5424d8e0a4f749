// The rules of packets, boxes and the listing, and what they speak of; no function.
#![tactic(auto)]

use answers::Refusal;

// P1, P2, P25: what the head of a packet states. Of the stated length of its box, `heading` bytes are the head of the box: 8, or 16 in the long form.
#[derive(Clone, Copy)]
pub struct Head {
    pub instance: u16,
    pub number: u32,
    pub stated: u64,
    pub heading: u64,
    pub kind: u32,
}

// What stands at a position of the file.
#[derive(Clone, Copy)]
pub enum Step {
    // The marker DA: the walk ends well.
    End,
    // A segment that is no packet, and where the next one begins.
    Skip(usize),
    // A packet, with where its payload stands and where the next segment begins.
    Meet {
        head: Head,
        start: usize,
        len: usize,
        next: usize,
    },
    Broken(Refusal),
}
