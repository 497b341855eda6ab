// The steps of a run, by what they do to its control.
ghost use Rattle.std.specs.Prelude.{false, ◌≡◌, ◌+◌, ◌≤◌, ◌<◌, ◌^◌, length};
ghost use Rattle.answers.specs.Codes.{number};
ghost use Rattle.board.specs.Cpuid.{leaves};
ghost use Rattle.board.specs.Map.{regions};
ghost use Rattle.machine.specs.Code.{state_of};
ghost use Rattle.machine.specs.Commands.{data_length, judged_bytes, wrong_length};
ghost use Rattle.machine.specs.ContractWords as contract;
ghost use Rattle.machine.specs.ContractWords.{Steps, Says, Roomy, Lent, Passed, Done, after, says, held, data_used};
ghost use Rattle.machine.specs.Machine as spec;

use crate::{
    Awaited, Command, Control, GATHERED, Job, Named, Phase, Setting, Tally, commands, memory,
};
use answers::Stop;
use answers::codes::Refusal;
use octets::numbers::Number;

// Bytes stored counts every store, repeats included.
pub fn with_stored(t: Tally, n: u64) -> Tally
    requires { t.stored + n < 2 ^ 64 }
    ensures { result ≡ spec.with_stored n t }
{
    Tally {
        stored: t.stored + n,
        ..t
    }
}

// The last entry counts.
fn with_entry(t: Tally, address: u64) -> Tally
    ensures { result ≡ spec.with_entry address t }
{
    Tally {
        entry: Some(address),
        ..t
    }
}

// The run ends.
fn stopped(c: Control, stop: Stop) -> Control
    ensures { Steps c result (spec.in_phase (Phase.Stopped stop)) }
{
    let phase = Phase::Stopped(stop);
    Control { phase, ..c }
}

// A command that breaks a rule stops the run at its first byte.
fn refused(c: Control, why: Refusal) -> Control
    ensures { Steps c result (spec.stopped (number why) c.start) }
{
    stopped(c, Stop::refused(why, c.start))
}

// The bytes of a command are awaited.
fn awaiting(c: Control) -> Control
    ensures { Steps c result spec.awaiting }
{
    Control {
        phase: Phase::Header,
        kept: 0,
        start: c.next,
        ..c
    }
}

// Where a command would begin, judged from sizes alone.
fn command_begins(c: Control, length: u64) -> Control
    requires { c.next ≤ length }
    ensures { Steps c result (spec.command_begins length) }
{
    let left = length - c.next;
    if left == 0 {
        if c.tally.entry.is_some() {
            return stopped(c, Stop::done());
        }
        return stopped(c, Stop::refused(Refusal::NoEntry, length));
    }
    if left < commands::HEADER {
        return stopped(c, Stop::refused(Refusal::CommandCut, c.next));
    }
    awaiting(c)
}

// A command counts as done when its last byte has been used.
fn finished(c: Control, length: u64) -> Control
    requires { (c.next ≤ length) × (c.tally.commands + 1 < 2 ^ 64) }
    ensures { Steps c result (spec.finished length) }
{
    let before = c.tally;
    let tally = Tally {
        commands: before.commands + 1,
        ..before
    };
    command_begins(Control { tally, ..c }, length)
}

// n of the `left` bytes of a command's data are used: the last one finishes it.
pub fn data_used(c: Control, n: u64, left: u64, phase: Phase, length: u64) -> Control
    requires { (c.next + n ≤ length) × (c.tally.commands + 1 < 2 ^ 64) }
    ensures { Steps c result (data_used length n left phase) }
{
    let next = c.next + n;
    if left == n {
        return finished(Control { next, ..c }, length);
    }
    Control { phase, next, ..c }
}

// How many bytes are awaited.
pub fn awaited(what: Awaited) -> u64
    ensures { result ≡ contract.awaited what }
{
    match what {
        Awaited::Magic => crate::MAGIC_LENGTH,
        Awaited::Header => commands::HEADER,
        Awaited::Parameters(k) => commands::HEADER + commands::judged_bytes(k),
    }
}

// All that are awaited are there.
pub fn read(
    c: Control,
    what: Awaited,
    gathered: &[u8; GATHERED],
    on: Setting,
    memory: &mut [u8],
) -> Control
    requires { (c.kept ≡ contract.awaited what) × Passed what (state_of c gathered.now)
        × Roomy c on.job.length × Lent on.map.bytes.now (length memory.old) }
    ensures { Done (says what (held on.entry) (state_of c gathered.now)) (state_of result gathered.now)
        (regions on.entry.map.bytes.now) memory.old memory.new }
{
    match judged(c, what, gathered, on, memory) {
        Ok(control) => control,
        Err(why) => refused(c, why),
    }
}

// What they say, unless it is refused.
fn judged(
    c: Control,
    what: Awaited,
    gathered: &[u8; GATHERED],
    on: Setting,
    memory: &mut [u8],
) -> Result<Control, Refusal>
    requires { (c.kept ≡ contract.awaited what) × Passed what (state_of c gathered.now)
        × Roomy c on.job.length × Lent on.map.bytes.now (length memory.old) }
    ensures { Done (says what (held on.entry) (state_of c gathered.now)) (after c result gathered.now)
        (regions on.entry.map.bytes.now) memory.old memory.new }
{
    match what {
        Awaited::Magic => Ok(magic_read(c, gathered, on.job.length)),
        Awaited::Header => header_read(c, gathered, on.job.length),
        Awaited::Parameters(k) => parameters_read(c, k, gathered, on, memory),
    }
}

// The magic is judged when its 8 bytes are there.
fn magic_read(c: Control, gathered: &[u8; GATHERED], length: u64) -> Control
    requires { (c.kept ≡ 8) × Roomy c length }
    ensures { spec.magic_read length (state_of c gathered.now) ≡ spec.no_stores (state_of result gathered.now) }
{
    if u64::little(gathered, 0) == crate::MAGIC {
        return command_begins(c, length);
    }
    stopped(c, Stop::refused(Refusal::FileMagic, 0))
}

// A header is judged when its 16 bytes are there.
fn header_read(c: Control, gathered: &[u8; GATHERED], length: u64) -> Result<Control, Refusal>
    requires { (c.kept ≡ 16) × Roomy c length }
    ensures { spec.header_read length (state_of c gathered.now) ≡ spec.no_stores (after c result gathered.now) }
{
    let n = u64::little(gathered, commands::DATA_LENGTH);
    let id = u16::little(gathered, 0);
    match commands::named(id) {
        Named::Known(k) => known_read(c, k, n, length),
        Named::Skipped => skipped_read(c, n, length),
        Named::Unknown => Err(Refusal::CommandId),
    }
}

// A command is judged by its length, and waits for what else it is judged by.
fn known_read(c: Control, k: Command, n: u64, length: u64) -> Result<Control, Refusal>
    requires { Roomy c length }
    ensures { Says c result (spec.header_says (Named.Known k) length n) }
{
    commands::judge_length(k, n, length - c.next)?;
    let phase = Phase::Parameters(k);
    Ok(Control { phase, ..c })
}

// A skipped command has its data skipped.
fn skipped_read(c: Control, n: u64, length: u64) -> Result<Control, Refusal>
    requires { Roomy c length }
    ensures { Says c result (spec.header_says Named.Skipped length n) }
{
    commands::judge_data(n, length - c.next)?;
    if n == 0 {
        return Ok(finished(c, length));
    }
    let phase = Phase::Skipping { left: n };
    Ok(Control { phase, ..c })
}

// What a command is judged by is there.
fn parameters_read(
    c: Control,
    k: Command,
    gathered: &[u8; GATHERED],
    on: Setting,
    memory: &mut [u8],
) -> Result<Control, Refusal>
    requires { (c.kept ≡ 16 + judged_bytes k) × (wrong_length k (data_length (state_of c gathered.now).gathered) ≡ false)
        × Roomy c on.job.length × Lent on.map.bytes.now (length memory.old) }
    ensures { Done (spec.parameters_read k (held on.entry) (state_of c gathered.now)) (after c result gathered.now)
        (regions on.entry.map.bytes.now) memory.old memory.new }
{
    match k {
        Command::Write => write_read(c, gathered, on),
        Command::Fill => fill_read(c, gathered, on, memory),
        Command::Entry => entry_read(c, gathered, on.job),
        Command::Check => check_read(c, gathered, on),
    }
}

// A write's address is judged over its whole range.
fn write_read(c: Control, gathered: &[u8; GATHERED], on: Setting) -> Result<Control, Refusal>
    requires { (c.kept ≡ 24) × (8 ≤ data_length (state_of c gathered.now).gathered) × Roomy c on.job.length }
    ensures { spec.write_read on.entry.job (regions on.entry.map.bytes.now) (state_of c gathered.now)
        ≡ spec.no_stores (after c result gathered.now) }
{
    let left = u64::little(gathered, commands::DATA_LENGTH) - commands::WRITE;
    let address = u64::little(gathered, commands::ADDRESS);
    commands::judge_range(on.map, on.job.mode, address, left)?;
    if left == 0 {
        return Ok(finished(c, on.job.length));
    }
    let phase = Phase::Storing { address, left };
    Ok(Control { phase, ..c })
}

// A fill is stored in one go.
fn fill_read(
    c: Control,
    gathered: &[u8; GATHERED],
    on: Setting,
    memory: &mut [u8],
) -> Result<Control, Refusal>
    requires { (c.kept ≡ 40) × Roomy c on.job.length × Lent on.map.bytes.now (length memory.old) }
    ensures { Done (spec.fill_read on.entry.job (regions on.entry.map.bytes.now) (state_of c gathered.now))
        (after c result gathered.now) (regions on.entry.map.bytes.now) memory.old memory.new }
{
    let address = u64::little(gathered, commands::ADDRESS);
    let n = u64::little(gathered, 24);
    commands::judge_range(on.map, on.job.mode, address, n)?;
    memory::fill(address, n, gathered[32], on.map, memory);
    let tally = with_stored(c.tally, n);
    Ok(finished(Control { tally, ..c }, on.job.length))
}

fn entry_read(c: Control, gathered: &[u8; GATHERED], job: Job) -> Result<Control, Refusal>
    requires { (c.kept ≡ 24) × Roomy c job.length }
    ensures { spec.entry_read job (state_of c gathered.now) ≡ spec.no_stores (after c result gathered.now) }
{
    let address = u64::little(gathered, commands::ADDRESS);
    commands::judge_entry(job.mode, address)?;
    let tally = with_entry(c.tally, address);
    Ok(finished(Control { tally, ..c }, job.length))
}

fn check_read(c: Control, gathered: &[u8; GATHERED], on: Setting) -> Result<Control, Refusal>
    requires { (c.kept ≡ 104) × Roomy c on.job.length }
    ensures { spec.check_read on.entry.job.length (leaves on.entry.table.now) (state_of c gathered.now)
        ≡ spec.no_stores (after c result gathered.now) }
{
    commands::judge_check(gathered, on.table)?;
    Ok(finished(c, on.job.length))
}
