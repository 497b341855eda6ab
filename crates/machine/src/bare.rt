// Running bare: a command file without SBS.
ghost use Rattle.std.specs.Prelude.{◌≡◌, length};
ghost use Rattle.answers.specs.Codes.{code_of};
ghost use Rattle.answers.specs.Rules.{first_broken};
ghost use Rattle.machine.specs.Bare.{run_bare, bare_rules};
ghost use Rattle.machine.specs.ContractWords.{bare_given, BareGives};

use crate::Job;
use answers::codes::Refusal;
use answers::{Answer, Stop, rules};
use board::{cpuid, map, reach};

// What a bare run is given to read.
#[derive(Clone, Copy)]
struct Given<'a> {
    file: &'a [u8],
    map: &'a [u8],
    table: &'a [u8],
    mode: u64,
}

// Runs a command file: every byte counts as proved. Returns the code, and leaves the answer in the lent record.
// Parameters and result are those of the C call.
pub fn run_bare(
    file: &[u8],
    map: &[u8],
    table: &[u8],
    mode: u64,
    memory: &mut [u8],
    answer: &mut [u8],
) -> u64
    ensures { run_bare (record { file = file.entry.now; map = map.now; table = table.now; mode = mode })
        memory.old answer.old
        ≡ record { code = result; answer = answer.new; lent = memory.new } }
{
    if answer.len() != answers::RECORD_LENGTH {
        return Refusal::Argument.code();
    }
    let given = Given {
        file,
        map,
        table,
        mode,
    };
    let a = ran(given, memory).unwrap_or_else(Answer::refused);
    answers::write_answer(answer, a)
}

// The answer of the run, unless it is refused before the file is looked at.
fn ran(given: Given, memory: &mut [u8]) -> Result<Answer, Refusal>
    ensures { BareGives (bare_given given.entry) memory.old result memory.new }
{
    judge(given, memory.len())?;
    let length = given.file.len() as u64;
    let job = Job {
        length,
        mode: given.mode,
    };
    let begun = crate::begin(length);
    let end = crate::take_piece(begun, given.file, job, given.map, given.table, memory);
    // the whole file always stops the machine, so this stop is never given
    let unstopped = Stop::refused(Refusal::NoEntry, length);
    let stop = crate::halted(end).unwrap_or(unstopped);
    Ok(crate::answer_of(stop, end.control.tally))
}

// What is judged before the file is looked at.
#[tactic(auto, using(answers::proofs::RefusalLaws::judged_in_order))]
fn judge(given: Given, memory: usize) -> Result<(), Refusal>
    ensures { code_of result ≡ first_broken (bare_rules (bare_given given.entry) memory) }
{
    reach::judge_mode(given.mode)?;
    rules::judge_size(given.file.len() as u64)?;
    map::judge_map(given.map, memory)?;
    cpuid::judge_table(given.table)
}
