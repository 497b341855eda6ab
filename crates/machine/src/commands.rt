// What a command is judged by: its ID, its data length, its range, its check.
ghost use Rattle.std.specs.Prelude.{◌≡◌};
ghost use Rattle.answers.specs.Codes.{code_of};
ghost use Rattle.answers.specs.Rules.{first_broken};
ghost use Rattle.board.specs.Cpuid.{leaves, lookup};
ghost use Rattle.board.specs.Map.{regions};
ghost use Rattle.board.specs.Reach.{limit, reachable};
ghost use Rattle.machine.specs.Commands as spec;

use crate::{Command, GATHERED, Named};
use answers::codes::Refusal;
use board::map::Map;
use board::{cpuid, reach};
use octets::numbers::Number;

// A command's header has as many bytes; of its data each command is judged by as many, a write by its address alone.
pub const HEADER: u64 = 16;

pub const WRITE: u64 = 8;

const FILL: u64 = 24;

const ENTRY: u64 = 8;

const CHECK: u64 = 88;

// Where the fields stand that several commands have, from a command's first byte on.
pub const DATA_LENGTH: usize = 8;

pub const ADDRESS: usize = 16;

// Where the result register and the text of a check stand; the text ends it.
const REGISTER: usize = 32;

const TEXT: usize = 40;

// What an ID names: the IDs are those of table 1. One match on the number is the form that the customer's document
// asks for.
pub fn named(id: u16) -> Named
    ensures { result ≡ spec.named id }
{
    match id {
        0 => Named::Known(Command::Write),
        1 => Named::Known(Command::Fill),
        2 => Named::Known(Command::Entry),
        3 => Named::Known(Command::Check),
        60000..=65535 => Named::Skipped,
        _ => Named::Unknown,
    }
}

// How many of its data bytes a command is judged by.
pub fn judged_bytes(k: Command) -> u64
    ensures { result ≡ spec.judged_bytes k }
{
    match k {
        Command::Write => WRITE,
        Command::Fill => FILL,
        Command::Entry => ENTRY,
        Command::Check => CHECK,
    }
}

// Whether a command cannot have n bytes of data.
fn wrong_length(k: Command, n: u64) -> bool
    ensures { result ≡ spec.wrong_length k n }
{
    match k {
        Command::Write => n < WRITE,
        Command::Fill => n != FILL,
        Command::Entry => n != ENTRY,
        Command::Check => n != CHECK,
    }
}

// What data of n bytes are judged by, with `left` bytes of the file behind the header.
pub fn judge_data(n: u64, left: u64) -> Result<(), Refusal>
    ensures { code_of result ≡ first_broken (spec.data_rules n left) }
{
    if left < n {
        return Err(Refusal::CommandCut);
    }
    Ok(())
}

// What a command's data length is judged by, before its data.
pub fn judge_length(k: Command, n: u64, left: u64) -> Result<(), Refusal>
    ensures { code_of result ≡ first_broken (spec.length_rules k n left) }
{
    if wrong_length(k, n) {
        return Err(Refusal::CommandLength);
    }
    judge_data(n, left)
}

// What a range that is to be stored to is judged by.
pub fn judge_range(map: Map, mode: u64, a: u64, n: u64) -> Result<(), Refusal>
    ensures { code_of result ≡ first_broken (spec.range_rules (regions map.entry.bytes.now) (limit mode) a n) }
{
    if !reaches(mode, a, n) {
        return Err(Refusal::NotReachable);
    }
    if !map.is_ram(a, n) {
        return Err(Refusal::NotRam);
    }
    Ok(())
}

// What an entry address is judged by: it need not be RAM.
pub fn judge_entry(mode: u64, a: u64) -> Result<(), Refusal>
    ensures { code_of result ≡ first_broken (spec.entry_rules (limit mode) a) }
{
    if !reaches(mode, a, 1) {
        return Err(Refusal::NotReachable);
    }
    Ok(())
}

// Whether a mode reaches a range.
fn reaches(mode: u64, a: u64, n: u64) -> bool
    ensures { result ≡ reachable (limit mode) a n }
{
    reach::is_reachable(reach::reach_limit(mode), a, n)
}

// What a check, whose bytes from its first one on are `c`, is judged by. Out of line: the loop over a piece is faster so.
#[inline(never)]
pub fn judge_check(c: &[u8; GATHERED], table: &[u8]) -> Result<(), Refusal>
    ensures { code_of result ≡ first_broken (spec.check_rules (leaves table.now) c.now) }
{
    if !has_zero(&c[TEXT..GATHERED]) {
        return Err(Refusal::Text);
    }
    if !cpuid::is_available(table) {
        return Err(Refusal::CpuidMissing);
    }
    if 3 < c[REGISTER] {
        return Err(Refusal::Register);
    }
    let found = looked_up(c, table);
    judge_found(found, u32::little(c, 28), u32::little(c, 24))
}

// What the result register of a check holds, if there is such a record.
fn looked_up(c: &[u8; GATHERED], table: &[u8]) -> Option<u32>
    ensures { result ≡ lookup (leaves table.now) (spec.eax c.now) (spec.ecx c.now)
        (spec.result_register c.now) }
{
    let eax = u32::little(c, 20);
    let ecx = u32::little(c, 16);
    cpuid::lookup(table, eax, ecx, c[REGISTER] as u64)
}

// What a lookup's result is judged by; the value is not masked.
fn judge_found(found: Option<u32>, mask: u32, value: u32) -> Result<(), Refusal>
    ensures { code_of result ≡ first_broken (spec.found_rules found mask value) }
{
    let word = found.ok_or(Refusal::NoRecord)?;
    if word & mask != value {
        return Err(Refusal::CheckFailed);
    }
    Ok(())
}

// Whether a zero byte is somewhere in the text. A loop that gives it by `break` is the form that the customer's document
// asks for.
fn has_zero(text: &[u8]) -> bool
    ensures { result ≡ spec.has_zero text.now }
{
    let mut i = 0;
    let found = loop {
        if text.len() <= i {
            break false;
        }
        if text[i] == 0 {
            break true;
        }
        i += 1;
    };
    found
}
