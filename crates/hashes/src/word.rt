// The words that the hashes compute with: of 32 bits and of 64.
ghost use Rattle.std.specs.Prelude.{◌≡◌, ℕ, ◌+◌, ◌-◌, ◌*◌, ◌/◌, ◌%◌, ◌^◌, ◌<◌, ◌≤◌, length};
ghost use Rattle.std.proofs.Common.{rules};
ghost use Rattle.hashes.specs.Words.{add, big_sigma, small_sigma, ch, maj};
ghost use Rattle.hashes.specs.Widths.{Width};
ghost use Rattle.hashes.specs.Tables.{narrow, wide};
ghost use Rattle.hashes.specs.Padding.{word_bytes};

use octets::numbers::Number;

// A number with the operations of FIPS 180-4 on words of its width.
// Σ and σ have their rotations one after the other, and Ch and Maj one operation less: as FIPS 180-4 has them they run slower.
// `plus`, `choice` and `majority` read alike at both widths: one text for both would need a trait for each operator, and is no plainer.
// Σ and σ differ in their constants: one text for both would need rotations as methods, and the constants as parameters.
pub trait Word: Number {
    ghost width: { Width };

    fn plus(self, other: Self) -> Self
        ensures { Self.value result ≡ add width.w (Self.value self) (Self.value other) };

    fn big_sigma_0(self) -> Self
        ensures { Self.value result ≡ big_sigma width.w width.Σ₀ (Self.value self) };

    fn big_sigma_1(self) -> Self
        ensures { Self.value result ≡ big_sigma width.w width.Σ₁ (Self.value self) };

    fn small_sigma_0(self) -> Self
        ensures { Self.value result ≡ small_sigma width.w width.σ₀ (Self.value self) };

    fn small_sigma_1(self) -> Self
        ensures { Self.value result ≡ small_sigma width.w width.σ₁ (Self.value self) };

    fn choice(self, y: Self, z: Self) -> Self
        ensures { Self.value result ≡ ch width.w (Self.value self) (Self.value y) (Self.value z) };

    fn majority(self, y: Self, z: Self) -> Self
        ensures { Self.value result ≡ maj (Self.value self) (Self.value y) (Self.value z) };

    ghost size: { Self.BYTES ≡ word_bytes width };

    ghost some: { 0 < Self.BYTES };

    ghost fits: { Self.BYTES ≤ 8 };

    ghost sixteen: { 16 ≤ width.rounds };

    ghost turns: { width.rounds % 4 ≡ 0 };

    ghost few: { width.rounds ≤ 80 };
}

impl Word for u32 {
    ghost width = { narrow };

    #[inline(always)]
    fn plus(self, other: u32) -> u32 {
        self.wrapping_add(other)
    }

    #[inline(always)]
    fn big_sigma_0(self) -> u32 {
        (self ^ (self ^ self.rotate_right(9)).rotate_right(11)).rotate_right(2)
    }

    #[inline(always)]
    fn big_sigma_1(self) -> u32 {
        (self ^ (self ^ self.rotate_right(14)).rotate_right(5)).rotate_right(6)
    }

    #[inline(always)]
    fn small_sigma_0(self) -> u32 {
        (self ^ self.rotate_right(11)).rotate_right(7) ^ (self >> 3)
    }

    #[inline(always)]
    fn small_sigma_1(self) -> u32 {
        (self ^ self.rotate_right(2)).rotate_right(17) ^ (self >> 10)
    }

    #[inline(always)]
    fn choice(self, y: u32, z: u32) -> u32 {
        z ^ (self & (y ^ z))
    }

    #[inline(always)]
    fn majority(self, y: u32, z: u32) -> u32 {
        ((self ^ y) & (y ^ z)) ^ y
    }

    ghost size = { Prim.search rules };

    ghost some = { Prim.search rules };

    ghost fits = { Prim.search rules };

    ghost sixteen = { Prim.search rules };

    ghost turns = { Prim.search rules };

    ghost few = { Prim.search rules };
}

impl Word for u64 {
    ghost width = { wide };

    #[inline(always)]
    fn plus(self, other: u64) -> u64 {
        self.wrapping_add(other)
    }

    #[inline(always)]
    fn big_sigma_0(self) -> u64 {
        (self ^ (self ^ self.rotate_right(5)).rotate_right(6)).rotate_right(28)
    }

    #[inline(always)]
    fn big_sigma_1(self) -> u64 {
        (self ^ (self ^ self.rotate_right(23)).rotate_right(4)).rotate_right(14)
    }

    #[inline(always)]
    fn small_sigma_0(self) -> u64 {
        (self ^ self.rotate_right(7)).rotate_right(1) ^ (self >> 7)
    }

    #[inline(always)]
    fn small_sigma_1(self) -> u64 {
        (self ^ self.rotate_right(42)).rotate_right(19) ^ (self >> 6)
    }

    #[inline(always)]
    fn choice(self, y: u64, z: u64) -> u64 {
        z ^ (self & (y ^ z))
    }

    #[inline(always)]
    fn majority(self, y: u64, z: u64) -> u64 {
        ((self ^ y) & (y ^ z)) ^ y
    }

    ghost size = { Prim.search rules };

    ghost some = { Prim.search rules };

    ghost fits = { Prim.search rules };

    ghost sixteen = { Prim.search rules };

    ghost turns = { Prim.search rules };

    ghost few = { Prim.search rules };
}
