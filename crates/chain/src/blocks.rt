ghost use Rattle.std.specs.Prelude.{◌≡◌, ◌+◌, ◌*◌, ◌≤◌, ◌<◌, length};
ghost use Rattle.answers.specs.Codes.{code_of};
ghost use Rattle.answers.specs.Rules.{first_broken};
ghost use Rattle.chain.specs.Blocks as spec;
ghost use Rattle.chain.specs.Code.{stream_of};
ghost use Rattle.chain.specs.ContractWords.{Passes, proved_of, block_at};
ghost use Rattle.chain.specs.Header.{header_of, first_block};

use crate::hashsum;
use crate::header::Stream;
use answers::Stop;
use answers::codes::Refusal;
use octets::parts;

// How many blocks are proved, and why not the next; a stop is numbers, as the C record has them.
#[derive(Clone, Copy)]
pub struct ProvedBlocks {
    pub count: u64,
    pub stop: Stop,
}

// An image that passed 4 to 12 by its approved header; the first block's offset, and the numbers of its blocks.
#[derive(Clone, Copy)]
pub struct Image<'a> {
    pub bytes: &'a [u8],
    pub approved: &'a [u8],
    pub first: usize,
    pub stream: Stream,
    pub ghost passes: { Passes bytes.now approved.now },
    pub ghost offset: { first ≡ first_block (header_of approved.now) },
    pub ghost numbers: { stream_of stream ≡ (header_of approved.now).stream },
}

impl<'a> Image<'a> {
    ghost use Rattle.chain.specs.Images.{approved_header, block_in};

    // Proves the blocks one by one, up to the first bad one.
    pub fn proved(self) -> ProvedBlocks
        ensures { result ≡ proved_of (approved_header self.entry) (block_in self.entry) }
    {
        let count = self.stream.count as u64;
        for k in 0..count {
            if let Err(why) = self.judged_at(k) {
                return ProvedBlocks {
                    count: k,
                    stop: Stop::refused(why, k + 1),
                };
            }
        }
        ProvedBlocks {
            count,
            stop: Stop::done(),
        }
    }

    // Block k. Blocks are numbered from 0; a place is one more.
    pub fn block(self, k: u64) -> &'a [u8]
        requires { k < self.stream.count }
        ensures { result.now ≡ block_in self.entry k }
    {
        block(self.bytes, self.first, self.stream.block_size, k)
    }

    // 13 to 15, of block k.
    pub fn judged_at(self, k: u64) -> Result<(), Refusal>
        requires { k < self.stream.count }
        ensures { code_of result ≡ spec.block_code (approved_header self.entry) (block_in self.entry) k }
    {
        judge_block(self.stream, k, self.expected(k), self.block(k))
    }

    // The hashsum that block k is to have: the header has the first one's, each block that of the next.
    fn expected(self, k: u64) -> &'a [u8]
        requires { k < self.stream.count }
        ensures { result.now ≡ spec.expected (approved_header self.entry) (block_in self.entry) k }
    {
        if k == 0 {
            return &self.approved[36..];
        }
        let before = self.block(k - 1);
        &before[..self.stream.hashsum_length as usize]
    }

    // The file's bytes in block k.
    pub fn file_bytes(self, k: u64) -> &'a [u8]
        requires { k < self.stream.count }
        ensures { result.now ≡ spec.file_bytes (approved_header self.entry).stream k (block_in self.entry k) }
    {
        file_bytes(self.stream, k, self.block(k))
    }
}

// Block k of those of this size that begin at `first`: the promise is for any bytes, and not only of an image that passed.
pub fn block<'a>(image: &'a [u8], first: usize, block_size: u32, k: u64) -> &'a [u8]
    requires { first + k * block_size + block_size ≤ length image.now }
    ensures { result.now ≡ block_at image.now first block_size k }
{
    let start = first + k as usize * block_size as usize;
    &image[start..start + block_size as usize]
}

// The file's bytes in block k, of any bytes that are long enough.
pub fn file_bytes<'a>(s: Stream, k: u64, block: &'a [u8]) -> &'a [u8]
    requires { s.hashsum_length + spec.padding_of (stream_of s) k ≤ length block.now }
    ensures { result.now ≡ spec.file_bytes (stream_of s) k block.now }
{
    let at = s.hashsum_length as usize + padding_of(s, k) as usize;
    &block[at..]
}

// 13 to 15, of block k by its expected hashsum and its bytes.
pub fn judge_block(s: Stream, k: u64, expected: &[u8], block: &[u8]) -> Result<(), Refusal>
    requires { (s.hashsum_length + spec.padding_of (stream_of s) k ≤ length block.now) × (k < s.count) }
    ensures { code_of result ≡ first_broken (spec.block_rules (stream_of s) k expected.now block.now) }
{
    let sum = s.hashsum_length as usize;
    let data = sum + padding_of(s, k) as usize;
    if !hashsum::hashsum_is(s.ids, block, expected) {
        return Err(Refusal::BlockHashsum);
    }
    if !parts::zero(&block[sum..data]) {
        return Err(Refusal::BlockPadding);
    }
    if k + 1 == s.count as u64 && !parts::zero(&block[..sum]) {
        return Err(Refusal::LastHash);
    }
    Ok(())
}

// How many bytes of padding block k has: only the first has any.
pub fn padding_of(s: Stream, k: u64) -> u32
    ensures { result ≡ spec.padding_of (stream_of s) k }
{
    if k == 0 {
        return s.padding;
    }
    0
}
