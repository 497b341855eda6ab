// SHA2 at each width of its words, as streams take it: 64 rounds over blocks of 64 bytes, and 80 over 128.
ghost use Rattle.std.proofs.Common.{rules};
ghost use Rattle.hashes.specs.Tables.{narrow, wide};
ghost use Rattle.hashes.specs.Code.{plain};

use crate::compress::{Constants, State};
use crate::stream::Blocks;
use crate::tables::{K256, K512};
use octets::numbers::Number;

// The two read alike but for lengths, which the language does not compute from a type.
// The constants are copied once for all blocks: read where they stand they would be copied at each use.
impl Blocks<64> for State<u32> {
    ghost width = { narrow };

    ghost words = { plain };

    fn blocks(self, bytes: &[u8]) -> State<u32> {
        if bytes.len() < 64 {
            return self;
        }
        let k = K256;
        let mut w = [0; 64];
        Constants { k: &k }.blocks(self, bytes, &mut w)
    }

    fn put_length(last: &mut [u8; 64], n: u64) {
        (n << 3).put_big(last, 56);
    }

    fn put(self, out: &mut [u8; 64], n: usize) -> usize {
        self.put_words(out, n)
    }

    ghost size = { Prim.search rules };

    ghost some = { Prim.search rules };

    ghost whole = { Prim.search rules };
}

impl Blocks<128> for State<u64> {
    ghost width = { wide };

    ghost words = { plain };

    fn blocks(self, bytes: &[u8]) -> State<u64> {
        if bytes.len() < 128 {
            return self;
        }
        let k = K512;
        let mut w = [0; 80];
        Constants { k: &k }.blocks(self, bytes, &mut w)
    }

    fn put_length(last: &mut [u8; 128], n: u64) {
        (n >> 61).put_big(last, 112);
        (n << 3).put_big(last, 120);
    }

    fn put(self, out: &mut [u8; 64], n: usize) -> usize {
        self.put_words(out, n)
    }

    ghost size = { Prim.search rules };

    ghost some = { Prim.search rules };

    ghost whole = { Prim.search rules };
}
