ghost use Rattle.std.specs.Prelude.{◌≡◌, ◌+◌, ◌*◌, ◌^◌, not, eqb, length, map};
ghost use Rattle.answers.specs.Codes.{code_of};
ghost use Rattle.answers.specs.Rules.{first_broken};
ghost use Rattle.board.specs.Cpuid as spec;

use answers::codes::Refusal;
use octets::numbers::Number;

// The bytes of a record of the table.
const RECORD: usize = 24;

// Whether a CPUID table is taken.
pub fn judge_table(table: &[u8]) -> Result<(), Refusal>
    ensures { code_of result ≡ first_broken (spec.table_rules table.now) }
{
    if table.len() % RECORD != 0 {
        return Err(Refusal::Table);
    }
    if 64 < table.len() / RECORD {
        return Err(Refusal::Table);
    }
    if !ascends(table) {
        return Err(Refusal::Table);
    }
    Ok(())
}

// Whether the unit has the instruction: its table has a record.
pub fn is_available(table: &[u8]) -> bool
    ensures { result ≡ not (eqb (length (spec.leaves table.now)) 0) }
{
    !records(table).is_empty()
}

// What the result register holds in the record that has both inputs. Its number stays one: the promise is for every one.
#[tactic(auto, using(crate::proofs::WalkLaws::record_by_record), unfolding(crate::specs::Cpuid::lookup))]
pub fn lookup(table: &[u8], eax: u32, ecx: u32, register: u64) -> Option<u32>
    ensures { result ≡ spec.lookup (spec.leaves table.now) eax ecx register }
{
    let wanted = Inputs { eax, ecx };
    // no binary search: the promise is for tables in any order; written as `find` it left two goals open
    for record in records(table) {
        if Inputs::of(record) == wanted {
            return Some(word(record, register));
        }
    }
    None
}

// Whether each record stands before the next.
fn ascends(table: &[u8]) -> bool
    ensures { result ≡ spec.ascending (spec.leaves table.now) }
{
    records(table).is_sorted_by(is_before)
}

fn is_before(this: &[u8; RECORD], that: &[u8; RECORD]) -> bool
    ensures { result ≡ spec.before (spec.leaf this.now 0) (spec.leaf that.now 0) }
{
    Inputs::of(this).number() < Inputs::of(that).number()
}

// The records of a table.
#[tactic(auto, using(crate::proofs::WalkLaws::chunks))]
fn records(table: &[u8]) -> &[[u8; RECORD]]
    ensures { map (λ r. spec.leaf r 0) result.now ≡ spec.leaves table.now }
{
    table.as_chunks::<RECORD>().0
}

// What a record is found by.
#[derive(Clone, Copy, PartialEq, Eq)]
struct Inputs {
    eax: u32,
    ecx: u32,
}

impl Inputs {
    fn of(leaf: &[u8; RECORD]) -> Inputs
        ensures eax { result.eax ≡ (spec.leaf leaf.now 0).eax_input }
        ensures ecx { result.ecx ≡ (spec.leaf leaf.now 0).ecx_input }
    {
        Inputs {
            eax: u32::little(leaf, 0),
            ecx: u32::little(leaf, 4),
        }
    }

    // Both as one number, whose order is by EAX input and then ECX input: one comparison in place of two.
    fn number(self) -> u64
        ensures { result ≡ self.eax * 2 ^ 32 + self.ecx }
    {
        self.eax as u64 * 4294967296 + self.ecx as u64
    }
}

// A result register of a record.
fn word(leaf: &[u8; RECORD], register: u64) -> u32
    ensures { result ≡ spec.register register (spec.leaf leaf.now 0) }
{
    match register {
        0 => u32::little(leaf, 8),
        1 => u32::little(leaf, 12),
        2 => u32::little(leaf, 16),
        _ => u32::little(leaf, 20),
    }
}
