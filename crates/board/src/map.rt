ghost use Rattle.std.specs.Prelude.{true, ◌≡◌, map};
ghost use Rattle.answers.specs.Codes.{code_of};
ghost use Rattle.answers.specs.Rules.{first_broken};
ghost use Rattle.board.specs.Map as spec;

use answers::codes::Refusal;
use octets::numbers::Number;

// The bytes of a record of the map.
const RECORD: usize = 16;

// Whether a map is taken with this much lent memory.
pub fn judge_map(map: &[u8], memory: usize) -> Result<(), Refusal>
    ensures { code_of result ≡ first_broken (spec.map_rules map.now memory) }
{
    let n = map.len() / RECORD;
    if map.len() % RECORD != 0 {
        return Err(Refusal::Map);
    }
    if n == 0 {
        return Err(Refusal::Map);
    }
    if 16 < n {
        return Err(Refusal::Map);
    }
    if !in_order(map) {
        return Err(Refusal::Map);
    }
    let sum = Map { bytes: map }.total();
    if 4294967296 < sum {
        return Err(Refusal::Map);
    }
    if memory as u64 != sum {
        return Err(Refusal::Map);
    }
    Ok(())
}

// A memory map whose regions are in order.
#[derive(Clone, Copy)]
pub struct Map<'a> {
    pub bytes: &'a [u8],
    pub ghost in_order: { spec.ordered 0 (spec.regions bytes.now) ≡ true },
}

impl Map<'_> {
    // The lowest address at or above `a` that is in no region.
    #[tactic(auto, using(crate::proofs::WalkLaws::regions_in_order), unfolding(crate::specs::Map::uncovered))]
    pub fn uncovered(self, a: u64) -> u64
        ensures { result ≡ spec.uncovered (spec.regions self.entry.bytes.now) a }
    {
        let mut first = a;
        for record in records(self.bytes) {
            let region = Region::of(record);
            // no later region is lower
            if first < region.base {
                return first;
            }
            first = first.max(region.base + region.length);
        }
        first
    }

    // Whether each byte of a range lies in a region; the end of the range is not computed, it could wrap.
    #[tactic(auto, using(crate::proofs::WalkLaws::regions_in_order))]
    pub fn is_ram(self, a: u64, n: u64) -> bool
        ensures { result ≡ spec.ram (spec.regions self.entry.bytes.now) a n }
    {
        n <= self.uncovered(a) - a
    }

    // The byte of lent memory that address `a` is: the bytes of RAM below it.
    #[tactic(auto, using(crate::proofs::WalkLaws::regions_in_order), unfolding(crate::specs::Map::offset))]
    pub fn offset(self, a: u64) -> usize
        ensures { result ≡ spec.offset (spec.regions self.entry.bytes.now) a }
    {
        let mut below: u64 = 0;
        for record in records(self.bytes) {
            let region = Region::of(record);
            if a <= region.base {
                return below as usize;
            }
            if a - region.base <= region.length {
                return (below + (a - region.base)) as usize;
            }
            below += region.length;
        }
        below as usize
    }

    // The sum of the lengths. Written as `map(..).sum()` it left two goals open.
    #[tactic(auto, using(crate::proofs::WalkLaws::regions_in_order), unfolding(crate::specs::Map::total))]
    pub fn total(self) -> u64
        ensures { result ≡ spec.total (spec.regions self.entry.bytes.now) }
    {
        let mut sum: u64 = 0;
        for record in records(self.bytes) {
            sum += Region::of(record).length;
        }
        sum
    }
}

// Whether the regions keep the rules on length, order and end; no end is computed before it is known not to wrap.
#[tactic(auto, using(crate::proofs::WalkLaws::record_by_record), unfolding(crate::specs::Map::ordered))]
fn in_order(map: &[u8]) -> bool
    ensures { result ≡ spec.ordered 0 (spec.regions map.now) }
{
    let mut low: u64 = 0;
    for record in records(map) {
        let region = Region::of(record);
        if region.length < 1 {
            return false;
        }
        if region.base < low {
            return false;
        }
        if 4503599627370496 < region.length {
            return false;
        }
        if 4503599627370496 - region.length < region.base {
            return false;
        }
        low = region.base + region.length;
    }
    true
}

// The records of a map. The table's are cut out alike, and each of the two says what its own records read as.
#[tactic(auto, using(crate::proofs::WalkLaws::chunks))]
fn records(bytes: &[u8]) -> &[[u8; RECORD]]
    ensures { map (λ r. spec.region r 0) result.now ≡ spec.regions bytes.now }
{
    bytes.as_chunks::<RECORD>().0
}

// The region that a record says.
#[derive(Clone, Copy)]
struct Region {
    base: u64,
    length: u64,
}

impl Region {
    fn of(bytes: &[u8; RECORD]) -> Region
        ensures base { result.base ≡ (spec.region bytes.now 0).base }
        ensures length { result.length ≡ (spec.region bytes.now 0).length }
    {
        Region {
            base: u64::little(bytes, 0),
            length: u64::little(bytes, 8),
        }
    }
}
