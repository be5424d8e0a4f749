// One segment of a file, and the packet in it, by the full rules (docs/RULES.md, W2, W4 to W9, P1 to P3, P25).
#![tactic(auto)]

ghost use Rattle.std.specs.Prelude.{◌≡◌, ◌+◌, ◌≤◌, ◌<◌, length, drop};
ghost use Rattle.box_rules.specs.Walk.{ones, head_at, long_head_at, held_at, packet_at, whole_at, sized_at, step_at};
ghost use Rattle.box_rules.specs.Walk.{be16 as Walk·be16, be32 as Walk·be32, be64 as Walk·be64, barred as Walk·barred, tagged as Walk·tagged};
ghost use Rattle.answers.specs.Verdict.{refusal};

use answers::Refusal;
use box_rules::{Head, Step};

pub fn be16(file: &[u8], i: usize) -> u16
    requires { i + 1 < length file.now }
    ensures { result ≡ Walk·be16 file.now i }
{
    u16::from(file[i]) * 256 + u16::from(file[i + 1])
}

pub fn be32(file: &[u8], i: usize) -> u32
    requires { i + 3 < length file.now }
    ensures { result ≡ Walk·be32 file.now i }
{
    u32::from(be16(file, i)) * 65536 + u32::from(be16(file, i + 2))
}

fn be64(file: &[u8], i: usize) -> u64
    requires { i + 7 < length file.now }
    ensures { result ≡ Walk·be64 file.now i }
{
    u64::from(be32(file, i)) * 4294967296 + u64::from(be32(file, i + 4))
}

fn barred(b: u8) -> bool
    ensures { result ≡ Walk·barred b }
{
    b < 2 || (208 <= b && b <= 217)
}

// Where the run of FF that begins at `at` ends.
fn past_ones(file: &[u8], at: usize) -> usize
    ensures { result ≡ at + ones (drop at file.now) }
{
    let mut m = at;
    // A while: the index where it stops is the answer, also where `at` lies past the end.
    while m < file.len() && file[m] == 255 {
        m += 1;
    }
    m
}

// Whether the contents behind the marker at m begin 4A 50.
fn tagged(file: &[u8], m: usize, len: usize) -> bool
    requires { m + 1 + len ≤ length file.now }
    ensures { result ≡ Walk·tagged file.now m len }
{
    if len < 4 {
        return false;
    }
    file[m + 3] == 74 && file[m + 4] == 80
}

// What the head of the packet behind the marker at m states.
pub fn head_at(file: &[u8], m: usize) -> Head
    requires { m + 18 < length file.now }
    ensures { result ≡ head_at file.now m }
{
    Head {
        instance: be16(file, m + 5),
        number: be32(file, m + 7),
        stated: u64::from(be32(file, m + 11)),
        heading: 8,
        kind: be32(file, m + 15),
    }
}

// The same where LBox is 1: the length of the box stands behind the type.
fn long_head_at(file: &[u8], m: usize) -> Head
    requires { m + 26 < length file.now }
    ensures { result ≡ long_head_at file.now m }
{
    let head = head_at(file, m);
    Head {
        instance: head.instance,
        number: head.number,
        stated: be64(file, m + 19),
        heading: 16,
        kind: head.kind,
    }
}

fn broken(number: u32, place: usize) -> Step
    ensures { result ≡ Step.Broken (refusal number place) }
{
    Step::Broken(Refusal {
        number,
        place,
        second: 0,
    })
}

// A packet, unless the length that it states does not hold the head of its box.
fn held_at(at: usize, head: Head, start: usize, len: usize, next: usize) -> Step
    ensures { result ≡ held_at at head start len next }
{
    if head.stated < head.heading {
        return broken(3, at);
    }
    Step::Meet {
        head,
        start,
        len,
        next,
    }
}

fn packet_at(file: &[u8], at: usize, m: usize, len: usize) -> Step
    requires { m + 1 + len ≤ length file.now }
    ensures { result ≡ packet_at file.now at m len }
{
    if len < 18 {
        return broken(3, at);
    }
    let next = m + 1 + len;
    if be32(file, m + 11) == 1 {
        if len < 26 {
            return broken(3, at);
        }
        return held_at(at, long_head_at(file, m), m + 27, len - 26, next);
    }
    held_at(at, head_at(file, m), m + 19, len - 18, next)
}

fn whole_at(file: &[u8], at: usize, m: usize, len: usize) -> Step
    requires { m + 1 + len ≤ length file.now }
    ensures { result ≡ whole_at file.now at m len }
{
    if file[m] != 235 {
        return Step::Skip(m + 1 + len);
    }
    if tagged(file, m, len) {
        return packet_at(file, at, m, len);
    }
    Step::Skip(m + 1 + len)
}

fn sized_at(file: &[u8], at: usize, m: usize) -> Step
    requires { m < length file.now }
    ensures { result ≡ sized_at file.now at m }
{
    if file.len() < m + 3 {
        return broken(2, at);
    }
    let len = usize::from(be16(file, m + 1));
    if len < 2 {
        return broken(2, at);
    }
    if file.len() < m + 1 + len {
        return broken(2, at);
    }
    whole_at(file, at, m, len)
}

// What stands at a position of the file, whatever it is.
pub fn full_step(file: &[u8], at: usize) -> Step
    ensures { result ≡ step_at file.now at }
{
    let m = past_ones(file, at);
    if m <= at {
        return broken(2, at);
    }
    if file.len() <= m {
        return broken(2, at);
    }
    let b = file[m];
    if b == 218 {
        return Step::End;
    }
    if barred(b) {
        return broken(2, at);
    }
    sized_at(file, at, m)
}
