// Taking the proved bytes of a piece: as many at a time as the phase can use at once.
ghost use Rattle.std.specs.Prelude.{true, false, ◌≡◌, ◌+◌, ◌≤◌, ◌-◌, ◌<◌, ◌^◌, min, take};
ghost use Rattle.std.proofs.Math.ListN as list;
ghost use Rattle.board.specs.Map.{regions, ram};
ghost use Rattle.machine.specs.Code.{state_of};
ghost use Rattle.machine.specs.ContractWords as contract;
ghost use Rattle.machine.specs.ContractWords.{Gathers, Done, Lent, Ready, Used, Steps, effects, held, phase_of, data_used};
ghost use Rattle.machine.specs.Machine as spec;
ghost use Rattle.machine.specs.Memory.{applied};

use crate::{Awaited, Control, GATHERED, Phase, Setting, Taken, memory, steps};
use octets::parts;
use std::cmp::min;

// What the bytes of a piece do. The outer loop has a turn for each command, and one for the magic, which is no command;
// the inner one takes its bytes. Both are left where the piece is used up, by a label, as the customer's document asks.
pub fn take_all(
    c: Control,
    gathered: &mut [u8; GATHERED],
    piece: &[u8],
    on: Setting,
    memory: &mut [u8],
) -> Control
    requires { Ready on.job on.map.bytes.now on.table.now (list.length memory.old) (state_of c gathered.old) }
    ensures { Done (effects (held on.entry) (state_of c gathered.old) piece.now) (state_of result gathered.new)
        (regions on.entry.map.bytes.now) memory.old memory.new }
{
    let mut s = c;
    let mut at = 0;
    'piece: loop {
        if let Phase::Stopped(_) = s.phase {
            break;
        }
        loop {
            if piece.len() <= at {
                break 'piece;
            }
            let t = take(s, gathered, &piece[at..], on, memory);
            s = t.control;
            at += t.used;
            if is_over(s) {
                continue 'piece;
            }
        }
    }
    s
}

// Whether a command's last byte has been used, or it was refused.
fn is_over(c: Control) -> bool
    ensures { result ≡ contract.is_over c.phase c.kept }
{
    match c.phase {
        Phase::Header => c.kept == 0,
        Phase::Stopped(_) => true,
        _ => false,
    }
}

// What the next bytes do: as many as the phase can use at once, at least one.
fn take(
    c: Control,
    gathered: &mut [u8; GATHERED],
    rest: &[u8],
    on: Setting,
    memory: &mut [u8],
) -> Taken
    requires { (0 < list.length rest.now)
        × Ready on.job on.map.bytes.now on.table.now (list.length memory.old) (state_of c gathered.old) }
    ensures { Used (held on.entry) (state_of c gathered.old) rest.now result.used
        (state_of result.control gathered.new) (regions on.entry.map.bytes.now) memory.old memory.new }
{
    match c.phase {
        Phase::Magic => take_gathered(c, Awaited::Magic, gathered, rest, on, memory),
        Phase::Header => take_gathered(c, Awaited::Header, gathered, rest, on, memory),
        Phase::Parameters(k) => {
            take_gathered(c, Awaited::Parameters(k), gathered, rest, on, memory)
        }
        Phase::Storing { address, left } => take_stored(c, address, left, rest, on, memory),
        Phase::Skipping { left } => take_skipped(c, left, rest, on.job.length),
        // a run that has stopped absorbs all bytes
        Phase::Stopped(_) => Taken {
            control: c,
            used: rest.len(),
        },
    }
}

// Bytes are gathered, and read when all that are awaited are there. Inlined at each call: else a million small commands
// take more than twice as long.
#[inline(always)]
fn take_gathered(
    c: Control,
    what: Awaited,
    gathered: &mut [u8; GATHERED],
    rest: &[u8],
    on: Setting,
    memory: &mut [u8],
) -> Taken
    requires { (0 < list.length rest.now) × (c.phase ≡ phase_of what)
        × Ready on.job on.map.bytes.now on.table.now (list.length memory.old) (state_of c gathered.old) }
    ensures { Used (held on.entry) (state_of c gathered.old) rest.now result.used
        (state_of result.control gathered.new) (regions on.entry.map.bytes.now) memory.old memory.new }
{
    let all = steps::awaited(what);
    let t = gather(c, all, gathered, rest);
    if (t.control.kept as u64) < all {
        return t;
    }
    let control = steps::read(t.control, what, gathered, on, memory);
    Taken { control, ..t }
}

// As many bytes are kept as are awaited, up to `all`, and at hand.
fn gather(c: Control, all: u64, gathered: &mut [u8; GATHERED], rest: &[u8]) -> Taken
    requires { (c.kept ≤ all) × (all ≤ list.length gathered.old) × (c.next + (all - c.kept) < 2 ^ 64) }
    ensures { Gathers all c gathered.old rest.now result.control gathered.new result.used }
{
    let kept = c.kept;
    let n = min(all - (kept as u64), rest.len() as u64) as usize;
    parts::copy(gathered, kept, &rest[..n]);
    let control = Control {
        kept: kept + n,
        next: c.next + (n as u64),
        ..c
    };
    Taken { control, used: n }
}

// Bytes of a write's data are stored from its address on as they come.
fn take_stored(
    c: Control,
    address: u64,
    left: u64,
    rest: &[u8],
    on: Setting,
    memory: &mut [u8],
) -> Taken
    requires { contract.Stores c address left on.job.length × Lent on.map.bytes.now (list.length memory.old)
        × (ram (regions on.map.bytes.now) address left ≡ true) }
    ensures { (memory.new ≡ applied (regions on.entry.map.bytes.now) memory.old
        (spec.stores_from address (take result.used rest.now)))
        × (result.used ≡ min left (list.length rest.now))
        × Steps c result.control (λ s. data_used on.entry.job.length result.used left (Phase.Storing (address + result.used) (left - result.used))
        (spec.tallied (spec.with_stored result.used s.tally) s)) }
{
    let n = min(left, rest.len() as u64);
    let used = n as usize;
    memory::store(address, &rest[..used], on.map, memory);
    let tally = steps::with_stored(c.tally, n);
    let phase = Phase::Storing {
        address: address + n,
        left: left - n,
    };
    let control = steps::data_used(Control { tally, ..c }, n, left, phase, on.job.length);
    Taken { control, used }
}

// Bytes of a skipped command's data do nothing.
fn take_skipped(c: Control, left: u64, rest: &[u8], length: u64) -> Taken
    requires { (c.next + left ≤ length) × (c.tally.commands + 1 < 2 ^ 64) }
    ensures { (result.used ≡ min left (list.length rest.now))
        × Steps c result.control (data_used length result.used left (Phase.Skipping (left - result.used))) }
{
    let n = min(left, rest.len() as u64);
    let phase = Phase::Skipping { left: left - n };
    let control = steps::data_used(c, n, left, phase, length);
    Taken {
        control,
        used: n as usize,
    }
}
