// One box assembled from its packets (docs/RULES.md, P4 to P12): judged, and its bytes handed out.
#![tactic(auto)]

ghost use Rattle.std.specs.Prelude.{length};
ghost use Rattle.answers.specs.Verdict.{Meets, Tried};
ghost use Rattle.box_rules.specs.Box.{box_bytes};

use answers::{Answer, Refusal};
use judging::Ready;
use packets::Sought;

fn try_box(sought: Sought, destination: &mut [u8]) -> Result<usize, Refusal>
    ensures { Tried 0 (box_bytes sought.entry.file.now sought.entry.kind sought.entry.instance (length destination.old))
        destination.old destination.new result }
{
    match judging::judged(sought, destination.len()) {
        Err(r) => Err(r),
        Ok(Ready { n, total, ordered }) => {
            if ordered {
                copies::put_in_order(sought, destination);
                return Ok(total);
            }
            copies::put_by_number(sought, n, destination);
            Ok(total)
        }
    }
}

// The bytes of the box of a type and instance.
pub fn box_bytes(file: &[u8], kind: u32, instance: u16, destination: &mut [u8]) -> Answer
    ensures { Meets 0 (box_bytes file.now kind instance (length destination.old))
        destination.old destination.new result }
{
    let sought = Sought {
        file,
        kind,
        instance,
    };
    let o = try_box(sought, destination);
    if o.is_err() {
        destination.fill(0);
    }
    Answer::from(o)
}
