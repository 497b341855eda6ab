// The unit that the files are run on.

pub const MODE: u64 = 64;

// How much memory the map needs.
pub const MEMORY: usize = 48;

#[derive(Drop)]
pub struct Unit {
    pub map: [u8; 48],
    pub table: [u8; 48],
}

impl Unit {
    pub(crate) fn new() -> Unit {
        // the first two regions touch
        let regions = [0x1000, 16, 0x1010, 16, 0x3000, 16].map(u64::to_le_bytes);
        // EAX, ECX, and the four registers that they give
        let leaves = [0, 0, 1, 2, 3, 4, 7, 1, 5, 6, 0xf0, 8].map(u32::to_le_bytes);
        let mut map = [0; 48];
        map.copy_from_slice(regions.as_flattened());
        let mut table = [0; 48];
        table.copy_from_slice(leaves.as_flattened());
        Unit { map, table }
    }
}
