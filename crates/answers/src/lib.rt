// The numbered answers, the answer record, and the rules on arguments that several calls share.
#![tactic(auto)]

pub mod codes;
pub mod rules;

ghost use Rattle.std.specs.Prelude.{◌≡◌, length};
ghost use Rattle.answers.specs.Answers as spec;
ghost use Rattle.answers.specs.Codes.{number};

use codes::Refusal;
use octets::numbers::Number;

// The answer record's length in bytes.
pub const RECORD_LENGTH: usize = 40;

// What a stop says: the code, and the place; numbers, as the C record has them.
#[derive(Clone, Copy)]
pub struct Stop {
    pub code: u64,
    pub place: u64,
}

// What a call answers; numbers, as the C record has them.
#[derive(Clone, Copy)]
pub struct Answer {
    pub code: u64,
    pub place: u64,
    pub commands: u64,
    pub stored: u64,
    pub entry: u64,
}

// Of any number, as the promise has always been; a `Refusal` has its own call.
pub fn stop_at(code: u64, place: u64) -> Stop
    ensures { result ≡ spec.stop_at code place }
{
    Stop { code, place }
}

impl Stop {
    // Nothing refused.
    pub fn done() -> Stop
        ensures { result ≡ spec.stop_at 0 0 }
    {
        stop_at(codes::DONE, 0)
    }

    // A refusal, and its place.
    pub fn refused(why: Refusal, place: u64) -> Stop
        ensures { result ≡ spec.stop_at (number why) place }
    {
        stop_at(why.code(), place)
    }
}

// The answer of a stop, with the commands done, the bytes stored and the entry.
pub fn told(stop: Stop, commands: u64, stored: u64, entry: u64) -> Answer
    ensures { result ≡ spec.told stop commands stored entry }
{
    Answer {
        code: stop.code,
        place: stop.place,
        commands,
        stored,
        entry,
    }
}

// A refusal, by any number, that nothing went before.
pub fn refused(code: u64) -> Answer
    ensures { result ≡ spec.refused code }
{
    told(stop_at(code, 0), 0, 0, 0)
}

impl Answer {
    // The same by its name.
    pub fn refused(why: Refusal) -> Answer
        ensures { result ≡ spec.refused (number why) }
    {
        refused(why.code())
    }
}

// Writes an answer into the lent record, and gives its code, which the call returns.
pub fn write_answer(answer: &mut [u8], a: Answer) -> u64
    requires { length answer.old ≡ spec.record_length }
    ensures { (answer.new ≡ spec.record_bytes a) × (result ≡ a.code) }
{
    a.code.put_little(answer, 0);
    a.place.put_little(answer, 8);
    a.commands.put_little(answer, 16);
    a.stored.put_little(answer, 24);
    a.entry.put_little(answer, 32);
    a.code
}
