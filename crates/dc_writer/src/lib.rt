// DC planes written: what each value is more than twice its half (docs/RULES.md, E1 to E3, E11).
#![tactic(auto)]

ghost use Rattle.std.specs.Prelude.{◌≡◌, map, ◌≤◌, length};
ghost use Rattle.answers.specs.Verdict.{Meets, Tried};
ghost use Rattle.bit_putter.specs.Code.{new_putter, Puts};
ghost use Rattle.plane_rules.specs.Dc.{dc_bit, write_dc};

use answers::{Answer, Refusal};
use bit_putter::Putter;
use levels::Part;

// What a value is more than twice its half.
fn dc_bit(value: i32) -> bool
    ensures { result ≡ dc_bit value }
{
    value % 2 != 0
}

// The bits of all values.
fn put_dc_bits(values: &[i32], destination: &mut [u8]) -> Putter
    requires { length values.now ≤ 1024 }
    ensures { Puts destination.old destination.new new_putter result (map dc_bit values.now) }
{
    let mut p = Putter {
        at: 0,
        held: 0,
        room: 7,
    };
    for &value in values {
        p = bit_putter::put_bit(destination, p, dc_bit(value));
    }
    p
}

// The bytes, or the first refusal.
fn try_write_dc(
    plane: u32,
    blocks: usize,
    values: &[i32],
    destination: &mut [u8],
) -> Result<usize, Refusal>
    ensures { Tried 0 (write_dc plane blocks values.now (length destination.old))
        destination.old destination.new result }
{
    if !planes::readable(plane, blocks) {
        return answers::refuse(20, 0);
    }
    if !planes::writable(plane) {
        return answers::refuse(28, 0);
    }
    if values.len() != blocks {
        return answers::refuse(21, 0);
    }
    if let Some(i) = levels::first_outside(Part::Dc, plane as usize, values) {
        return answers::refuse(11, i);
    }
    let p = put_dc_bits(values, destination);
    let count = bit_putter::put_end(destination, p);
    if destination.len() < count {
        return answers::refuse(9, count);
    }
    Ok(count)
}

// Plane j of DC values of level j, coded against their halves.
pub fn write_dc(plane: u32, blocks: usize, values: &[i32], destination: &mut [u8]) -> Answer
    ensures { Meets 0 (write_dc plane blocks values.now (length destination.old))
        destination.old destination.new result }
{
    let o = try_write_dc(plane, blocks, values, destination);
    if o.is_err() {
        destination.fill(0);
    }
    Answer::from(o)
}
