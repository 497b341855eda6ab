// The command machine: what the proved bytes of a command file do to a unit.
#![tactic(auto)]

pub mod bare;
mod commands;
mod memory;
mod steps;
mod taking;

ghost use Rattle.std.specs.Prelude.{◌≡◌, length};
ghost use Rattle.board.specs.Map.{regions};
ghost use Rattle.machine.specs.Code.{machine_of};
ghost use Rattle.machine.specs.ContractWords.{Ready};
ghost use Rattle.machine.specs.Machine as spec;
ghost use Rattle.machine.specs.Memory.{applied};

use answers::codes::{self, Refusal};
use answers::{Answer, Stop};
use board::map::Map;

// What a run is given besides the unit's map and table: the file's length, and the mode, a number as C gives it.
#[derive(Clone, Copy)]
pub struct Job {
    pub length: u64,
    pub mode: u64,
}

// What a run is held against: its job, and the unit's map and table. Memory is no field: a step writes it, while these are
// read and copied.
#[derive(Clone, Copy)]
pub struct Setting<'m, 't> {
    pub job: Job,
    pub map: Map<'m>,
    pub table: &'t [u8],
}

// The commands that act on the unit.
#[derive(Clone, Copy)]
pub enum Command {
    Write,
    Fill,
    Entry,
    Check,
}

// What a command ID names.
#[derive(Clone, Copy)]
pub enum Named {
    Known(Command),
    Skipped,
    Unknown,
}

// What bytes are gathered for, to be judged when all are there: three of the phases, whose form the customer gave.
#[derive(Clone, Copy)]
pub enum Awaited {
    Magic,
    Header,
    Parameters(Command),
}

// What the next byte is read as.
#[derive(Clone, Copy)]
pub enum Phase {
    // one of the file's first 8 bytes
    Magic,
    // one of a command's 16 header bytes
    Header,
    // one of the data bytes that this command is judged by
    Parameters(Command),
    // the byte for an address, of as many as are left
    Storing { address: u64, left: u64 },
    // a byte of a skipped command's data, of as many as are left
    Skipping { left: u64 },
    // nothing: the run has ended
    Stopped(Stop),
}

// What a run has done so far: commands done, bytes stored, and the last entry, if one was set.
#[derive(Clone, Copy)]
pub struct Tally {
    pub commands: u64,
    pub stored: u64,
    pub entry: Option<u64>,
}

// Where a run stands, but for the bytes so far of the magic, or of the command's header and parameters, of which there
// are `kept`; `start` and `next` are the file offsets of the command's first byte and of the next byte.
#[derive(Clone, Copy)]
pub struct Control {
    pub phase: Phase,
    pub kept: usize,
    pub start: u64,
    pub next: u64,
    pub tally: Tally,
}

// Where a run stands between two pieces: these bytes are the first `kept` of `gathered`, which are not copied at each
// step of a piece. An array and no list, since memory is fixed.
#[derive(Clone, Copy)]
pub struct Machine {
    pub control: Control,
    pub gathered: [u8; GATHERED],
}

// What bytes leave: the control, and how many of them were used.
#[derive(Clone, Copy)]
pub struct Taken {
    pub control: Control,
    pub used: usize,
}

// The magic number that a command file begins with.
pub const MAGIC: u64 = 0x8adc5fa2448cb65e;

// Its bytes.
pub const MAGIC_LENGTH: u64 = 8;

// The most bytes that are gathered: a check's header and data.
pub const GATHERED: usize = 104;

// A machine before the first byte of a file of this length.
pub fn begin(length: u64) -> Machine
    ensures { machine_of result ≡ spec.begun length }
{
    let phase = if length < MAGIC_LENGTH {
        Phase::Stopped(Stop::refused(Refusal::FileMagic, 0))
    } else {
        Phase::Magic
    };
    let tally = Tally {
        commands: 0,
        stored: 0,
        entry: None,
    };
    let control = Control {
        phase,
        kept: 0,
        start: 0,
        next: 0,
        tally,
    };
    let gathered = [0u8; GATHERED];
    Machine { control, gathered }
}

// Takes the next bytes of the file, all of them proved: a piece of any length.
pub fn take_piece(
    m: Machine,
    piece: &[u8],
    job: Job,
    map: &[u8],
    table: &[u8],
    memory: &mut [u8],
) -> Machine
    requires { Ready job map.now table.now (length memory.old) (machine_of m) }
    ensures { (machine_of result ≡ spec.run (spec.setting_of job map.now table.now) (machine_of m)
        piece.now)
        × (memory.new ≡ applied (regions map.now) memory.old
        (spec.trace (spec.setting_of job map.now table.now) (machine_of m) piece.now)) }
{
    let mut gathered = m.gathered;
    let on = Setting {
        job,
        map: Map { bytes: map },
        table,
    };
    let control = taking::take_all(m.control, &mut gathered, piece, on, memory);
    Machine { control, gathered }
}

// The stop of a run that has stopped.
pub fn halted(m: Machine) -> Option<Stop>
    ensures { result ≡ spec.halted m.control.phase }
{
    match m.control.phase {
        Phase::Stopped(stop) => Some(stop),
        _ => None,
    }
}

// The answer of a stop, with the counts as they stand; entry is 0 on refusal, and where none was set.
pub fn answer_of(stop: Stop, tally: Tally) -> Answer
    ensures { result ≡ spec.answer_of stop tally }
{
    let entry = match tally.entry {
        Some(address) if stop.code == codes::DONE => address,
        _ => 0,
    };
    answers::told(stop, tally.commands, tally.stored, entry)
}
