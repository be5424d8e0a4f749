// DC planes read: one value a block, one bit a value (docs/RULES.md, R1 to R4).
#![tactic(auto)]

ghost use Rattle.std.specs.Prelude.{◌≡◌, ◌≤◌, pos, nat_abs, length};
ghost use Rattle.answers.specs.Verdict.{Meets, Tried};
ghost use Rattle.bits.specs.Code.{bits_in};
ghost use Rattle.plane_rules.specs.Dc.{new_dc, dc_blocks, read_dc};
ghost use Rattle.planes.specs.Code.{Small, Ran};

use answers::{Answer, Refusal};
use bits::BitReader;
use levels::Part;

// "new DC = 2c + bit"
fn new_dc(value: i32, bit: bool) -> i32
    requires { nat_abs value ≤ 32768 }
    ensures { result ≡ new_dc value bit }
{
    2 * value + (bit as i32)
}

// The blocks, one bit each.
fn read_dc_blocks<'a>(
    r: &mut BitReader<'a>,
    values: &[i32],
    destination: &mut [i32],
) -> Result<(), Refusal>
    requires small { Small values.now }
    requires values_in_bounds { length values.now ≤ length destination.old }
    ensures { Ran (length values.now) (dc_blocks 0 values.now (bits_in r.old))
        destination.old destination.new r.new result }
{
    for (i, &value) in values.iter().enumerate() {
        match r.next_bit() {
            Ok(bit) => destination[i] = new_dc(value, bit),
            Err(stop) => {
                return Err(Refusal {
                    number: stop.number,
                    place: i,
                    second: stop.offset,
                });
            }
        }
    }
    Ok(())
}

// The plane, or the first refusal.
fn try_read_dc(
    plane: u32,
    blocks: usize,
    data: &[u8],
    values: &[i32],
    destination: &mut [i32],
) -> Result<usize, Refusal>
    ensures { Tried (pos 0) (read_dc plane blocks values.now «data».now (length destination.old))
        destination.old destination.new result }
{
    if !planes::readable(plane, blocks) {
        return answers::refuse(20, 0);
    }
    if values.len() != blocks {
        return answers::refuse(21, 0);
    }
    let level = (plane - 1) as usize;
    if let Some(i) = levels::first_outside(Part::Dc, level, values) {
        return answers::refuse(11, i);
    }
    if destination.len() < blocks {
        return answers::refuse(9, blocks);
    }
    let mut r = BitReader::new(data);
    read_dc_blocks(&mut r, values, destination)?;
    planes::close_plane(blocks, &r)
}

// Plane j of DC values: level j-1 to level j, one value a block.
pub fn read_dc(
    plane: u32,
    blocks: usize,
    data: &[u8],
    values: &[i32],
    destination: &mut [i32],
) -> Answer
    ensures { Meets (pos 0) (read_dc plane blocks values.now «data».now (length destination.old))
        destination.old destination.new result }
{
    let o = try_read_dc(plane, blocks, data, values, destination);
    if o.is_err() {
        destination.fill(0);
    }
    Answer::from(o)
}
