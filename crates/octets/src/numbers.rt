#![tactic(auto, using(crate::proofs::PartLaws::part_items), unfolding(crate::specs::Numbers::little, crate::specs::Numbers::little_bytes))]

ghost use Rattle.std.specs.Prelude.{◌≡◌, ℕ, ◌+◌, ◌≤◌, length};
ghost use Rattle.octets.specs.Numbers.{little, little_bytes, big, big_bytes};
ghost use Rattle.octets.specs.Parts.{part, put};

use crate::parts::copy;

// A number of BYTES bytes, whatever its type. Each read compiles to one load, and each write to one store.
// The impls read alike, a line for each method: an impl written by a macro of the repository is refused.
pub trait Number: Copy {
    const BYTES: usize;

    ghost BYTES: { ℕ };

    ghost value: { Self → ℕ };

    // The number that the bytes from offset `at` on spell, lowest first.
    fn little(s: &[u8], at: usize) -> Self
        requires { at + BYTES ≤ length s.now }
        ensures { value result ≡ little (part s.now at BYTES) };

    // The same, highest byte first.
    fn big(s: &[u8], at: usize) -> Self
        requires { at + BYTES ≤ length s.now }
        ensures { value result ≡ big (part s.now at BYTES) };

    // Writes it from offset `at` on, lowest byte first.
    fn put_little(self, s: &mut [u8], at: usize)
        requires { at + BYTES ≤ length s.old }
        ensures { s.new ≡ put s.old at (little_bytes BYTES (value self)) };

    // The same, highest byte first.
    fn put_big(self, s: &mut [u8], at: usize)
        requires { at + BYTES ≤ length s.old }
        ensures { s.new ≡ put s.old at (big_bytes BYTES (value self)) };
}

impl Number for u16 {
    const BYTES: usize = 2;

    ghost BYTES = { 2 };

    ghost value = { λ x. x };

    fn little(s: &[u8], at: usize) -> u16 {
        u16::from_le_bytes(bytes(s, at))
    }

    fn big(s: &[u8], at: usize) -> u16 {
        u16::from_be_bytes(bytes(s, at))
    }

    fn put_little(self, s: &mut [u8], at: usize) {
        copy(s, at, &self.to_le_bytes())
    }

    fn put_big(self, s: &mut [u8], at: usize) {
        copy(s, at, &self.to_be_bytes())
    }
}

impl Number for u32 {
    const BYTES: usize = 4;

    ghost BYTES = { 4 };

    ghost value = { λ x. x };

    fn little(s: &[u8], at: usize) -> u32 {
        u32::from_le_bytes(bytes(s, at))
    }

    fn big(s: &[u8], at: usize) -> u32 {
        u32::from_be_bytes(bytes(s, at))
    }

    fn put_little(self, s: &mut [u8], at: usize) {
        copy(s, at, &self.to_le_bytes())
    }

    fn put_big(self, s: &mut [u8], at: usize) {
        copy(s, at, &self.to_be_bytes())
    }
}

impl Number for u64 {
    const BYTES: usize = 8;

    ghost BYTES = { 8 };

    ghost value = { λ x. x };

    fn little(s: &[u8], at: usize) -> u64 {
        u64::from_le_bytes(bytes(s, at))
    }

    fn big(s: &[u8], at: usize) -> u64 {
        u64::from_be_bytes(bytes(s, at))
    }

    fn put_little(self, s: &mut [u8], at: usize) {
        copy(s, at, &self.to_le_bytes())
    }

    fn put_big(self, s: &mut [u8], at: usize) {
        copy(s, at, &self.to_be_bytes())
    }
}

// The N bytes from offset `at` on.
fn bytes<const N: usize>(s: &[u8], at: usize) -> [u8; N]
    requires { at + N ≤ length s.now }
    ensures { result ≡ part s.now at N }
{
    let mut bytes = [0; N];
    bytes.copy_from_slice(&s[at..at + N]);
    bytes
}
