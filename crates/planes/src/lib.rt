// What the calls on planes share: the ranges of plane and blocks, the levels that are written, and what must follow the last block (docs/RULES.md, R1, R3, R15, E1, E11).
#![tactic(auto)]

ghost use Rattle.std.specs.Prelude.{◌≡◌};
ghost use Rattle.laws.specs.Index.{every};
ghost use Rattle.plane_rules.specs.Plane.{readable, our_writer, writable};
ghost use Rattle.planes.specs.Code.{Closes};

use answers::Refusal;
use bits::BitReader;

// Whether plane and blocks lie in the ranges of a plane.
pub fn readable(plane: u32, blocks: usize) -> bool
    ensures { result ≡ every (readable plane blocks) }
{
    if plane < 1 {
        return false;
    }
    if 4 < plane {
        return false;
    }
    blocks <= 1024
}

// Whether our writer writes this level.
pub fn writable(plane: u32) -> bool
    ensures { result ≡ writable our_writer plane }
{
    plane <= 3
}

// What must follow the last block; `count` values were written.
pub fn close_plane<'a>(count: usize, r: &BitReader<'a>) -> Result<usize, Refusal>
    ensures { Closes count r.now result }
{
    if r.is_padding() {
        return Ok(count);
    }
    answers::refuse(18, r.seen())
}
