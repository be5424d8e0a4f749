// One value of an AC block, in reading: corrected by a bit, left, or set (docs/RULES.md, R6 to R13).
#![tactic(auto)]

ghost use Rattle.std.specs.Prelude.{◌≡◌, ◌≤◌, nat_abs, IfErr};
ghost use Rattle.bit_rules.specs.Source.{take_bit};
ghost use Rattle.bits.specs.Code.{bits_in, read_by};
ghost use Rattle.ac_values.specs.Code.{fixing, aimed};

use bits::{BitReader, Stop};

// "each value already nonzero takes one correction bit"
pub fn correct<'a>(r: &mut BitReader<'a>, value: i32) -> Result<i32, Stop>
    requires { nat_abs value ≤ 32768 }
    ensures taken { read_by r.new result ≡ fixing value (take_bit (bits_in r.old)) }
    ensures kept { IfErr result (λ stop. bits_in r.new ≡ bits_in r.old) }
{
    let bit = r.next_bit()?;
    Ok(ac_tasks::corrected(value, bit))
}

// What the zero behind the walk becomes.
pub fn aimed(leave: bool, sign: bool) -> i32
    ensures { result ≡ aimed leave sign }
{
    if leave {
        return 0;
    }
    ac_tasks::unit(sign)
}
