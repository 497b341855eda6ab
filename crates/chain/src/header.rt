ghost use Rattle.std.specs.Prelude.{[], ◌≡◌, ◌≤◌, length, drop};
ghost use Rattle.answers.specs.Codes.{code_of};
ghost use Rattle.answers.specs.Rules.{first_broken};
ghost use Rattle.chain.specs.Code.{stream_of, header_with};
ghost use Rattle.chain.specs.ContractWords.{Sized};
ghost use Rattle.chain.specs.Header as spec;
ghost use Rattle.chain.specs.Images.{JudgedBy};

use crate::blocks::Image;
use crate::hashsum;
use answers::codes::Refusal;
use answers::rules;
use octets::numbers::Number;
use std::array;

// The magic at the start of each signed header.
pub const MAGIC: u32 = 0xe6019598;

// What a header says of its blocks. The IDs are numbers, as `hashes::digest` takes any.
#[derive(Clone, Copy)]
pub struct Stream {
    pub count: u32,
    pub block_size: u32,
    pub hashsum_length: u16,
    pub padding: u32,
    pub ids: [u64; 4],
}

// The signed header's fields but for the root hash, which stands behind them.
#[derive(Clone, Copy)]
pub struct Header {
    pub magic: u32,
    pub stream: Stream,
    pub signature: u32,
    pub header_size: u16,
    pub scheme: u16,
}

// 1 and 4 to 12, of an image by its approved header.
pub fn stream_judged<'a>(
    image: &'a [u8],
    approved: &'a [u8],
    signature: u64,
) -> Result<Image<'a>, Refusal>
    ensures { JudgedBy (spec.stream_rules image.now approved.now signature) image.now approved.now result }
{
    rules::judge_signature(signature)?;
    rules::judge_size(image.len() as u64)?;
    judged(image, approved, signature)
}

// 4 to 12. This is the one place where the header is read.
pub fn judged<'a>(image: &'a [u8], approved: &'a [u8], signature: u64) -> Result<Image<'a>, Refusal>
    ensures { JudgedBy (spec.image_rules image.now approved.now signature) image.now approved.now result }
{
    if approved.len() < 36 || !image.starts_with(approved) {
        return Err(Refusal::Approved);
    }
    let h = header_of(approved);
    judge_fields(h, approved.len() as u64, signature)?;
    if image.len() as u64 != image_length(h) {
        return Err(Refusal::ImageLength);
    }
    Ok(Image {
        bytes: image,
        approved,
        first: approved.len() + signature as usize,
        stream: h.stream,
    })
}

// The fields of an approved header.
fn header_of(approved: &[u8]) -> Header
    requires { 36 ≤ length approved.now }
    ensures { header_with result (drop 36 approved.now) ≡ spec.header_of approved.now }
{
    Header {
        magic: u32::little(approved, 0),
        stream: stream_of(approved),
        signature: u32::little(approved, 12),
        header_size: u16::little(approved, 16),
        scheme: u16::little(approved, 28),
    }
}

fn stream_of(approved: &[u8]) -> Stream
    requires { 36 ≤ length approved.now }
    ensures { stream_of result ≡ (spec.header_of approved.now).stream }
{
    Stream {
        count: u32::little(approved, 4),
        block_size: u32::little(approved, 8),
        hashsum_length: u16::little(approved, 18),
        padding: u32::little(approved, 32),
        ids: array::from_fn(|i| u16::little(approved, 20 + 2 * i) as u64),
    }
}

// The length of the image that a header says. The product of two 32-bit numbers does not wrap. The block size is bounded
// here and not in a type: a header is judged with any.
pub fn image_length(h: Header) -> u64
    requires { h.stream.block_size ≤ 1048576 }
    ensures { result ≡ spec.image_length (header_with h []) }
{
    let s = h.stream;
    h.header_size as u64 + h.signature as u64 + s.count as u64 * s.block_size as u64
}

// 5 to 11, of an approved header of this length.
#[tactic(auto, using(answers::proofs::RefusalLaws::judged_in_order))]
fn judge_fields(h: Header, approved: u64, signature: u64) -> Result<(), Refusal>
    ensures { code_of result ≡ first_broken (spec.field_rules (header_with h []) approved signature) }
{
    let s = h.stream;
    let sum = s.hashsum_length as u64;
    if h.magic != MAGIC {
        return Err(Refusal::HeaderMagic);
    }
    hashsum::judge_ids(s.ids)?;
    if sum != hashsum::sum_length(s.ids) {
        return Err(Refusal::HashsumLength);
    }
    if h.header_size as u64 != 36 + sum || h.header_size as u64 != approved {
        return Err(Refusal::HeaderSize);
    }
    if h.scheme != 1 {
        return Err(Refusal::Scheme);
    }
    if h.signature as u64 != signature {
        return Err(Refusal::SignatureLength);
    }
    judge_count(s)
}

// 11, of the blocks.
fn judge_count(s: Stream) -> Result<(), Refusal>
    ensures { code_of result ≡ first_broken (spec.count_rules (stream_of s)) }
{
    let block_size = s.block_size as u64;
    let sum = s.hashsum_length as u64;
    if s.count == 0 {
        return Err(Refusal::Blocks);
    }
    judge_block_size(block_size, sum)?;
    if block_size - sum <= s.padding as u64 {
        return Err(Refusal::Blocks);
    }
    Ok(())
}

// 11, of the block size.
pub fn judge_block_size(block_size: u64, sum: u64) -> Result<(), Refusal>
    ensures { code_of result ≡ first_broken (spec.block_size_rules block_size sum) }
{
    if block_size <= sum || 1048576 < block_size {
        return Err(Refusal::Blocks);
    }
    Ok(())
}

// The length of the file that these blocks hold.
pub fn file_length(s: Stream) -> u64
    requires { Sized (stream_of s) }
    ensures { result ≡ spec.file_length (stream_of s) }
{
    let data = s.block_size as u64 - s.hashsum_length as u64;
    s.count as u64 * data - s.padding as u64
}
