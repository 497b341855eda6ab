// The one door to memory: every store that a run makes goes through one of these two.
ghost use Rattle.std.specs.Prelude.{true, ◌≡◌, length, replicate};
ghost use Rattle.board.specs.Map.{regions, ram};
ghost use Rattle.machine.specs.ContractWords.{Lent};
ghost use Rattle.machine.specs.Machine.{stores_from};
ghost use Rattle.machine.specs.Memory.{applied};

use board::map::Map;
use octets::parts;

// Stores bytes from an address on, in one copy.
pub fn store(address: u64, bytes: &[u8], map: Map, memory: &mut [u8])
    requires { Lent map.bytes.now (length memory.old) × (ram (regions map.bytes.now) address (length bytes.now) ≡ true) }
    ensures { memory.new
        ≡ applied (regions map.entry.bytes.now) memory.old (stores_from address bytes.now) }
{
    let at = map.offset(address);
    parts::copy(memory, at, bytes);
}

// Stores n bytes v from an address on. Out of line: the loop over a piece is faster so.
#[inline(never)]
pub fn fill(address: u64, n: u64, v: u8, map: Map, memory: &mut [u8])
    requires { Lent map.bytes.now (length memory.old) × (ram (regions map.bytes.now) address n ≡ true) }
    ensures { memory.new
        ≡ applied (regions map.entry.bytes.now) memory.old (stores_from address (replicate n v)) }
{
    let at = map.offset(address);
    parts::fill(memory, at, n as usize, v);
}
