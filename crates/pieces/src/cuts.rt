// Runs of a file that is cut into pieces, and of the whole file.
ghost use Rattle.std.specs.Prelude.{◌≡◌, length};
ghost use Rattle.machine.specs.Code.{machine_of};
ghost use Rattle.machine.specs.ContractWords.{Ready};

use crate::files::ROOM;
use crate::unit::{self, Unit};
use answers::codes::Refusal;
use answers::{Answer, Stop, rules};
use board::map;
use machine::{Job, Machine};
use std::array;

// How many cuts were tried, and how many of them left what the whole run left.
#[derive(Clone, Copy)]
pub struct Count {
    pub tried: u64,
    pub agree: u64,
}

impl Count {
    // One cut more. The counts stay small; that they do is not proved, so they wrap.
    fn add(&mut self, agrees: bool) {
        self.tried = self.tried.wrapping_add(1);
        self.agree = self.agree.wrapping_add(u64::from(agrees));
    }
}

// All cuts of the file: into single bytes, into two pieces and into three.
pub(crate) fn all(unit: &Unit, file: &[u8], whole: &Left) -> Count {
    let mut count = Count { tried: 0, agree: 0 };
    // each byte alone; the list has room for any file, and the empty pieces behind this one's end are left out
    let bytes: [&[u8]; ROOM] = array::from_fn(|at| file.get(at..=at).unwrap_or_default());
    count.add(agrees(unit, file, &bytes[..file.len().min(ROOM)], whole));
    for first in 0..=file.len() {
        let (head, rest) = file.split_at(first);
        count.add(agrees(unit, file, &[head, rest], whole));
        for second in 0..=rest.len() {
            let (middle, end) = rest.split_at(second);
            count.add(agrees(unit, file, &[head, middle, end], whole));
        }
    }
    count
}

// Whether a run over the pieces leaves what the whole run left.
fn agrees(unit: &Unit, file: &[u8], pieces: &[&[u8]], whole: &Left) -> bool {
    in_pieces(unit, file.len(), pieces) == *whole
}

// What a run leaves.
#[derive(Clone, Copy, PartialEq, Eq)]
pub struct Left {
    pub answer: [u8; answers::RECORD_LENGTH],
    pub memory: [u8; unit::MEMORY],
}

impl Left {
    // Before a run.
    fn fresh() -> Left {
        Left {
            answer: [0; answers::RECORD_LENGTH],
            memory: [0xee; unit::MEMORY],
        }
    }
}

// A run over the whole file.
pub(crate) fn whole(unit: &Unit, file: &[u8]) -> Left {
    let mut left = Left::fresh();
    machine::bare::run_bare(
        file,
        &unit.map,
        &unit.table,
        unit::MODE,
        &mut left.memory,
        &mut left.answer,
    );
    left
}

// As running bare does, but with the file in pieces.
fn in_pieces(unit: &Unit, size: usize, pieces: &[&[u8]]) -> Left {
    let mut left = Left::fresh();
    let length = size as u64;
    // a refusal before the first piece leaves the record as it was, and so it shows
    if let Ok(answer) = run(length, pieces, &unit.map, &unit.table, &mut left.memory) {
        answers::write_answer(&mut left.answer, answer);
    }
    left
}

fn run(
    length: u64,
    pieces: &[&[u8]],
    map: &[u8],
    table: &[u8],
    memory: &mut [u8],
) -> Result<Answer, Refusal> {
    rules::judge_size(length)?;
    map::judge_map(map, memory.len())?;
    let mode = unit::MODE;
    let job = Job { length, mode };
    let end = taken(machine::begin(length), pieces, job, map, table, memory);
    // the whole file always stops the machine, so this stop is never given
    let unstopped = Stop::refused(Refusal::NoEntry, length);
    let stop = machine::halted(end).unwrap_or(unstopped);
    Ok(machine::answer_of(stop, end.control.tally))
}

// Takes the pieces one after another. Map and table are slices here, since the machine's contract speaks of these.
fn taken(
    m: Machine,
    pieces: &[&[u8]],
    job: Job,
    map: &[u8],
    table: &[u8],
    memory: &mut [u8],
) -> Machine
    requires { Ready job map.now table.now (length memory.old) (machine_of m) }
{
    let mut state = m;
    for piece in pieces {
        state = machine::take_piece(state, piece, job, map, table, memory);
    }
    state
}
