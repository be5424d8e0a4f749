// The codes that T.81, Annex C, assigns, as entries of a writer's table (docs/RULES.md, K3).
#![tactic(auto)]

ghost use Rattle.std.specs.Prelude.{◌≡◌, true, ◌<◌, length};
ghost use Rattle.bit_rules.specs.Table.{table, code_count, good_table};
ghost use Rattle.code_entries.specs.Code.{Assigned, Entries};

// A code: its length in bits, and the number that they make.
#[derive(Clone, Copy)]
pub struct Code {
    pub size: usize,
    pub number: u32,
}

// The code of the value at a place.
fn code_at(counts: &[u8], place: usize) -> Code
    requires { (length counts.now ≡ 16) × (place < code_count counts.now) × (place < 256) }
    ensures { Assigned counts.now place result }
{
    let mut first: usize = 0;
    let mut k = place;
    for (l, &count) in counts.iter().enumerate() {
        let n = usize::from(count);
        if k < n {
            return Code {
                size: l + 1,
                number: (first + k) as u32,
            };
        }
        first = 2 * (first + n);
        k -= n;
    }
    Code { size: 0, number: 0 }
}

// The entries of all values, made once a call: the writer looks each code up.
pub fn code_table(counts: &[u8], values: &[u8]) -> [u32; 256]
    requires { good_table (table counts.now values.now) ≡ true }
    ensures { Entries (table counts.now values.now) result }
{
    let mut entries = [0; 256];
    for (place, &v) in values.iter().enumerate() {
        let code = code_at(counts, place);
        entries[usize::from(v)] = 32 * code.number + (code.size as u32);
    }
    entries
}
