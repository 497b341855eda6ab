// Writes the digests of known messages, one to a line: hash, message, digest in hexadecimal.
// A message whose name ends in `-by-N` is fed in pieces of N bytes.
#![tactic(auto)]

ghost use Rattle.std.specs.Prelude.{◌<◌, ◌≤◌, All};
ghost use Rattle.hashes.specs.Progress.{Fed};

use hashes::Hasher;
use std::{array, fmt, io};

// The IDs and names of the hashes.
const HASHES: [(u64, &str); 3] = [(2, "sha256"), (3, "sha384"), (4, "sha512")];

// Lengths about those at which the padding needs another block.
const BORDERS: [usize; 14] = [
    55, 56, 57, 63, 64, 65, 111, 112, 113, 119, 120, 127, 128, 129,
];

fn main(rt: HostRuntime) -> io::Result<()> {
    published(&rt)?;
    for length in BORDERS {
        border(&rt, length)?;
    }
    Ok(())
}

// The messages of the standard's published examples, whole and in pieces that end before, at and behind a block's border.
// Calls and no table, so that each call shows that its piece sizes are not 0, which all below ask for: `chunks` does.
fn published(rt: &impl Print) -> io::Result<()> {
    lines(rt, "empty", b"", &[])?;
    lines(rt, "abc", b"abc", &[1])?;
    let short = b"abcdbcdecdefdefgefghfghighijhijkijkljklmklmnlmnomnopnopq";
    lines(rt, "448-bit", short, &[55])?;
    let long =
        b"abcdefghbcdefghicdefghijdefghijkefghijklfghijklmghijklmnhijklmnoijklmnopjklmnopqklmnopqrlmnopqrsmnopqrstnopqrstu";
    lines(rt, "896-bit", long, &[1, 63, 64, 65])?;
    let message = [b'a'; 1000000];
    million(rt, &message)
}

// The array's length is known here by its type: proving it from the value builds a list of a million.
fn million(rt: &impl Print, message: &[u8; 1000000]) -> io::Result<()> {
    lines(rt, "million-a", message, &[1, 127, 128, 1000])
}

// The message of `length` bytes whose byte i is i mod 251.
fn border(rt: &impl Print, length: usize) -> io::Result<()>
    requires { length ≤ 129 }
{
    let message: [u8; 129] = array::from_fn(|i| (i % 251) as u8);
    whole(rt, format_args!("border-{length}"), &message[..length])
}

// The digests of a message, and of the message fed in pieces of each of these sizes.
fn lines(rt: &impl Print, name: &str, message: &[u8], sizes: &[usize]) -> io::Result<()>
    requires { All (λ size. 0 < size) sizes.now }
{
    whole(rt, name, message)?;
    for size in sizes {
        pieces(rt, name, message, *size)?;
    }
    Ok(())
}

// By `hashes::digest`, where `pieces` takes a `Hasher`: the two calls are to give the same.
fn whole(rt: &impl Print, name: impl fmt::Display + Drop, message: &[u8]) -> io::Result<()> {
    for (id, hash) in HASHES {
        let mut room = [0u8; 64];
        let digest = Hex(digest(id, message, &mut room));
        println!(rt; "{hash} {name} {digest}")?;
    }
    Ok(())
}

fn pieces(rt: &impl Print, name: &str, message: &[u8], size: usize) -> io::Result<()>
    requires { 0 < size }
{
    for (id, hash) in HASHES {
        let mut room = [0u8; 64];
        let digest = Hex(digest_by(size, id, message, &mut room));
        println!(rt; "{hash} {name}-by-{size} {digest}")?;
    }
    Ok(())
}

fn digest<'a>(id: u64, message: &[u8], room: &'a mut [u8; 64]) -> &'a [u8] {
    let length = hashes::digest(id, message, room);
    &room[..length]
}

fn digest_by<'a>(size: usize, id: u64, message: &[u8], room: &'a mut [u8; 64]) -> &'a [u8]
    requires { 0 < size }
{
    let length = fed(id, message, size).finish(room);
    &room[..length]
}

fn fed(id: u64, message: &[u8], size: usize) -> Hasher
    requires { 0 < size }
    ensures { Fed result id message.now }
{
    let mut hasher = Hasher::begin(id);
    for piece in message.chunks(size) {
        hasher = hasher.fed(piece);
    }
    hasher
}

// Bytes as two hexadecimal digits each.
#[derive(Drop)]
struct Hex<'a>(&'a [u8]);

impl fmt::Display for Hex<'_> {
    fn fmt<W: fmt::Write>(&self, f: &mut fmt::Formatter<W>) -> fmt::Result {
        for byte in self.0 {
            write!(f, "{byte:02x}")?;
        }
        Ok(())
    }
}
