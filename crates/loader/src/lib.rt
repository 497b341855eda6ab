// The stacked loader: proves the blocks of an image one by one, and runs the commands of each as soon as it is proved.
#![tactic(auto)]

ghost use Rattle.std.specs.Prelude.{◌≡◌, length};
ghost use Rattle.answers.specs.Codes.{code_of};
ghost use Rattle.answers.specs.Rules.{first_broken};
ghost use Rattle.machine.specs.Machine.{answer_of};
ghost use Rattle.loader.specs.ContractWords.{early_rules, Loadable, offer_of, offered, BlocksGive, LoadsTo, LoadGives};
ghost use Rattle.loader.specs.Load.{loaded};

use answers::codes::Refusal;
use answers::{Answer, Stop, rules};
use board::{cpuid, map, reach};
use chain::blocks::Image;
use chain::header;
use machine::{Job, Machine};

// What load is given to read; `signature` is the expected signature length.
#[derive(Clone, Copy)]
struct Offer<'a> {
    image: &'a [u8],
    approved: &'a [u8],
    map: &'a [u8],
    table: &'a [u8],
    mode: u64,
    signature: u64,
}

// Loads an image: returns the code, and leaves the answer in the lent record and the stores in memory.
// Parameters and result are those of the C call.
pub fn load(
    image: &[u8],
    header: &[u8],
    map: &[u8],
    cpuid: &[u8],
    mode: u64,
    signature_length: u64,
    memory: &mut [u8],
    answer: &mut [u8],
) -> u64
    ensures { loaded (record {
      image = image.entry.now;
      approved = header.now;
      map = map.now;
      table = cpuid.now;
      mode = mode;
      signature = signature_length;
    })
        memory.old answer.old
        ≡ record { code = result; answer = answer.new; lent = memory.new } }
{
    if answer.len() != answers::RECORD_LENGTH {
        return Refusal::Argument.code();
    }
    let offer = Offer {
        image,
        approved: header,
        map,
        table: cpuid,
        mode,
        signature: signature_length,
    };
    let a = load_answer(offer, memory);
    answers::write_answer(answer, a)
}

// What load answers: the refusal by 1 to 12, or what the blocks come to.
fn load_answer(offer: Offer, memory: &mut [u8]) -> Answer
    ensures { LoadGives (offered offer.entry) memory.old result memory.new }
{
    load_judged(offer, memory).unwrap_or_else(Answer::refused)
}

// What the blocks come to, where none of 1 to 12 is given. The header is read once, as it is judged.
fn load_judged(offer: Offer, memory: &mut [u8]) -> Result<Answer, Refusal>
    ensures { LoadsTo (offered offer.entry) memory.old result memory.new }
{
    judge_early(offer, memory.len())?;
    let image = header::judged(offer.image, offer.approved, offer.signature)?;
    Ok(load_blocks(image, offer.map, offer.table, offer.mode, memory))
}

// 1 to 3, before the approved header is looked at, with so much memory.
#[tactic(auto, using(answers::proofs::RefusalLaws::judged_in_order))]
fn judge_early(offer: Offer, memory: usize) -> Result<(), Refusal>
    ensures { code_of result ≡ first_broken (early_rules (offered offer.entry) memory) }
{
    reach::judge_mode(offer.mode)?;
    rules::judge_signature(offer.signature)?;
    rules::judge_size(offer.image.len() as u64)?;
    map::judge_map(offer.map, memory)?;
    cpuid::judge_table(offer.table)
}

// The blocks of an image that passed: each is proved when the machine waits for its bytes, and then run. Not of the offer,
// whose image may not have passed.
fn load_blocks(image: Image, map: &[u8], table: &[u8], mode: u64, memory: &mut [u8]) -> Answer
    requires { Loadable image map.now (length memory.old) }
    ensures { BlocksGive (offer_of image.entry map.now table.now mode) memory.old result memory.new }
{
    let length = header::file_length(image.stream);
    let job = Job { length, mode };
    let mut m = machine::begin(length);
    for k in 0..image.stream.count as u64 {
        if let Some(stop) = machine::halted(m) {
            return answered(m, stop);
        }
        if let Err(why) = image.judged_at(k) {
            return answered(m, Stop::refused(why, k + 1));
        }
        m = machine::take_piece(m, image.file_bytes(k), job, map, table, memory);
    }
    // a machine that all blocks were run on has stopped
    answered(m, machine::halted(m).unwrap())
}

// The answer of a stop, with the machine's counts as they stand.
fn answered(m: Machine, stop: Stop) -> Answer
    ensures { result ≡ answer_of stop m.control.tally }
{
    machine::answer_of(stop, m.control.tally)
}
