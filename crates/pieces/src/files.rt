// Command files, part by part.
use std::mem;

// How many bytes a file may have.
pub const ROOM: usize = 160;

// A command, or another part of a file.
#[derive(Clone, Copy)]
pub enum Part {
    Magic,
    // stores eight bytes at an address, 32 bytes
    Write(u64),
    // 40 bytes
    Fill {
        address: u64,
        count: u64,
        pattern: u64,
    },
    // 24 bytes
    Entry(u64),
    // of ECX where EAX is 7 and ECX is 1, under the mask 0x30, 104 bytes
    Check(u32),
    // a command's header alone: ID, which need not be a command's, and data length
    Header(u16, u64),
    Eight(u64),
    Four(u32),
    Two(u16),
    Byte(u8),
}

impl Part {
    // Appends the bytes of this part: the rest of the room then begins behind them.
    pub(crate) fn put(self, rest: &mut &mut [u8]) {
        match self {
            Part::Magic => put(rest, &machine::MAGIC.to_le_bytes()),
            Part::Write(address) => {
                put_header(rest, 0, 16);
                put_all(rest, &[address, 0x0807060504030201].map(u64::to_le_bytes));
            }
            Part::Fill {
                address,
                count,
                pattern,
            } => {
                put_header(rest, 1, 24);
                put_all(rest, &[address, count, pattern].map(u64::to_le_bytes));
            }
            Part::Entry(address) => {
                put_header(rest, 2, 8);
                put(rest, &address.to_le_bytes());
            }
            Part::Check(value) => {
                put_header(rest, 3, 88);
                put_all(rest, &[1, 7, value, 0x30].map(u32::to_le_bytes));
                put(rest, &2u64.to_le_bytes());
                put(rest, &[b' '; 63]);
                // the text's zero byte
                put(rest, &[0]);
            }
            Part::Header(id, length) => put_header(rest, id, length),
            Part::Eight(n) => put(rest, &n.to_le_bytes()),
            Part::Four(n) => put(rest, &n.to_le_bytes()),
            Part::Two(n) => put(rest, &n.to_le_bytes()),
            Part::Byte(b) => put(rest, &[b]),
        }
    }
}

// ID 2, reserved 6, data length 8.
fn put_header(rest: &mut &mut [u8], id: u16, length: u64) {
    put(rest, &id.to_le_bytes());
    put(rest, &[0; 6]);
    put(rest, &length.to_le_bytes());
}

// Numbers, by the bytes of each.
fn put_all<const N: usize>(rest: &mut &mut [u8], numbers: &[[u8; N]]) {
    put(rest, numbers.as_flattened());
}

// Appends bytes, as far as there is room.
fn put(rest: &mut &mut [u8], bytes: &[u8]) {
    let n = bytes.len().min(rest.len());
    let (front, behind) = mem::take(rest).split_at_mut(n);
    front.copy_from_slice(&bytes[..n]);
    *rest = behind;
}
