// Cuts short command files in every way into two pieces and into three, and into single bytes.
// A line a file: the answer of the whole run, how many cuts were tried, and how many left that answer and memory.
#![tactic(auto)]

mod cases;
mod cuts;
mod files;
mod unit;

use cuts::Count;
use files::{Part, ROOM};
use octets::numbers::Number;
use std::io;
use unit::Unit;

fn main(rt: HostRuntime) -> io::Result<()> {
    let unit = Unit::new();
    for (name, parts) in cases::FILES {
        let mut room = [0; ROOM];
        report(&rt, name, file(parts, &mut room), &unit)?;
    }
    Ok(())
}

// The file that the parts make, written into the room.
fn file<'a>(parts: &[Part], room: &'a mut [u8; ROOM]) -> &'a [u8] {
    let mut rest: &mut [u8] = room;
    for part in parts {
        part.put(&mut rest);
    }
    // no rest is longer than its room; that is not proved, so the difference stops at 0
    let size = ROOM.saturating_sub(rest.len());
    &room[..size]
}

fn report(rt: &impl Print, name: &str, file: &[u8], unit: &Unit) -> io::Result<()> {
    let whole = cuts::whole(unit, file);
    let Count { tried, agree } = cuts::all(unit, file, &whole);
    print!(rt; "{name}: ")?;
    print_answer(rt, &whole.answer)?;
    println!(rt; "; {tried} cuts, {agree} agree")
}

fn print_answer(rt: &impl Print, record: &[u8; answers::RECORD_LENGTH]) -> io::Result<()> {
    let code = u64::little(record, 0);
    let place = u64::little(record, 8);
    let commands = u64::little(record, 16);
    let stored = u64::little(record, 24);
    let entry = u64::little(record, 32);
    print!(rt; "code {code}, place {place}, commands {commands}, stored {stored}, entry {entry}")
}
