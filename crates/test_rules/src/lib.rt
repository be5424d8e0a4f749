// The rules of records of vectors and of tallies, and what they speak of; no function.
#![tactic(auto)]

// A record was run: whether it was right, and where the next one stands.
#[derive(Clone, Copy)]
pub struct Finding {
    pub good: bool,
    pub next: usize,
}

// Records are run one after the other: where the next one stands, how many are left, and of its group, which is where the
// group's name stands, how many were run and were right.
#[derive(Clone, Copy)]
pub struct Run {
    pub at: usize,
    pub left: usize,
    pub group: usize,
    pub right: u64,
    pub all: u64,
}
