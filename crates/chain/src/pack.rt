ghost use Rattle.std.specs.Prelude.{[], ◌∷◌, ◌++◌, ◌≡◌, ℕ, ◌+◌, ◌-◌, ◌/◌, ◌^◌, ◌≤◌, ◌<◌, length, get_or};
ghost use Rattle.octets.specs.Numbers.{little_bytes};
ghost use Rattle.octets.specs.Parts.{part, put};
ghost use Rattle.answers.specs.Codes.{code_of};
ghost use Rattle.answers.specs.Rules.{first_broken};
ghost use Rattle.chain.specs.Code.{header_with, order_of, ordered};
ghost use Rattle.chain.specs.ContractWords.{order_rules, length_rules, Orderly, Planned, Linkable, Written, start_of, room_of, link_before};
ghost use Rattle.chain.specs.Hashsum.{hashsum, sum_length};
ghost use Rattle.chain.specs.Header.{id_bytes, header_bytes};
ghost use Rattle.chain.specs.Pack as spec;

use crate::header::{Header, Stream};
use crate::{blocks, hashsum, header};
use answers::codes::{self, Refusal};
use answers::rules;
use octets::numbers::Number;
use octets::parts;

// Writes the image of a file, with a zeroed signature field; on a refusal it writes nothing. Parameters and result are those
// of the C call.
pub fn pack(
    file: &[u8],
    id1: u64,
    id2: u64,
    id3: u64,
    id4: u64,
    block_size: u64,
    signature_length: u64,
    output: &mut [u8],
) -> u64
    ensures { spec.packed (record {
      file = file.entry.now;
      ids = id1 ∷ id2 ∷ id3 ∷ id4 ∷ [];
      block_size = block_size;
      signature = signature_length;
    }) output.old
        ≡ record { code = result; output = output.new } }
{
    let order = Order {
        file,
        ids: [id1, id2, id3, id4],
        block_size,
        signature: signature_length,
    };
    match packed(order, output) {
        Ok(()) => codes::DONE,
        Err(why) => why.code(),
    }
}

// The same, before a refusal becomes the number that C gets.
fn packed(order: Order, output: &mut [u8]) -> Result<(), Refusal>
    ensures { spec.packed (ordered order.entry) output.old ≡ record { code = code_of result; output = output.new } }
{
    order.judged()?;
    let h = order.header();
    judge_length(h, output.len() as u64)?;
    pack_image(order.file, h, output);
    Ok(())
}

// What is packed, and how.
#[derive(Clone, Copy)]
struct Order<'a> {
    file: &'a [u8],
    ids: [u64; 4],
    block_size: u64,
    signature: u64,
}

impl<'a> Order<'a> {
    // 6, 11, 28 and 1. The image is longer than the file, so past this nothing wraps.
    #[tactic(auto, using(answers::proofs::RefusalLaws::judged_in_order))]
    fn judged(self) -> Result<(), Refusal>
        ensures { code_of result ≡ first_broken (order_rules (ordered self.entry)) }
    {
        hashsum::judge_ids(self.ids)?;
        header::judge_block_size(self.block_size, hashsum::sum_length(self.ids))?;
        if self.file.is_empty() {
            return Err(Refusal::EmptyFile);
        }
        rules::judge_signature(self.signature)?;
        rules::judge_size(self.file.len() as u64)
    }

    // The fields that the file is packed under.
    fn header(self) -> Header
        requires { Orderly (ordered self) }
        ensures { header_with result (spec.packed_header (order_of self.entry.file.now result)).root
            ≡ spec.packed_header (ordered self.entry) }
    {
        let n = self.file.len() as u64;
        let sum = hashsum::sum_length(self.ids);
        let room = self.block_size - sum;
        let count = block_count(n, room);
        let stream = Stream {
            count: count as u32,
            block_size: self.block_size as u32,
            hashsum_length: sum as u16,
            padding: (count * room - n) as u32,
            ids: self.ids,
        };
        Header {
            magic: header::MAGIC,
            stream,
            signature: self.signature as u32,
            header_size: (36 + sum) as u16,
            scheme: 1,
        }
    }
}

// 1, the image over 2^30 bytes, and 29, for an output of this length. On the block size see `image_length`.
fn judge_length(h: Header, output: u64) -> Result<(), Refusal>
    requires { h.stream.block_size ≤ 1048576 }
    ensures { code_of result ≡ first_broken (length_rules (header_with h []) output) }
{
    let n = header::image_length(h);
    rules::judge_size(n)?;
    if output != n {
        return Err(Refusal::OutputLength);
    }
    Ok(())
}

// As few blocks with this room for data as hold the file.
fn block_count(file: u64, room: u64) -> u64
    requires { (0 < file) × (0 < room) }
    ensures { result ≡ (file + room - 1) / room }
{
    file.div_ceil(room)
}

// The image, into an output as long as it is. File and fields stay two parameters: what is known of them counts the
// output's bytes too, so that a struct of both would carry half of it, and no clause would be shorter.
fn pack_image(file: &[u8], h: Header, output: &mut [u8])
    requires { Planned file.now h (length output.old) }
    ensures { output.new ≡ spec.image (order_of file.now h) }
{
    pack_blocks(file, h, output);
    let head = h.header_size as usize;
    let signature = h.signature as usize;
    parts::fill(output, head, signature, 0);
    put_fields(h, output);
    put_link(h, 0, 36, output);
}

// The blocks, from the last to the first: each has the hashsum of the one behind it.
fn pack_blocks(file: &[u8], h: Header, output: &mut [u8])
    requires { Planned file.now h (length output.old) }
    ensures { Written file.now h 0 output.new }
{
    let count = h.stream.count as u64;
    for k in (0..count).rev() {
        pack_block(file, h, k, output);
    }
}

// Block k, from 0, where those behind it stand.
fn pack_block(file: &[u8], h: Header, k: u64, output: &mut [u8])
    requires { Planned file.now h (length output.old) × (k < h.stream.count) × Written file.now h (k + 1) output.old }
    ensures { Written file.now h k output.new }
{
    let s = h.stream;
    let at = block_start(h, k);
    put_link(h, k + 1, at, output);
    put_data(file, h, k, at + s.hashsum_length as usize, output);
}

// Where block k begins.
fn block_start(h: Header, k: u64) -> usize
    requires { (k ≤ h.stream.count) × (h.stream.block_size ≤ 1048576) }
    ensures { result ≡ start_of h k }
{
    let s = h.stream;
    h.header_size as usize + h.signature as usize + k as usize * s.block_size as usize
}

// The hash field before block k: that block's hashsum, and zero behind the last.
fn put_link(h: Header, k: u64, at: usize, output: &mut [u8])
    requires { Linkable h k at (length output.old) }
    ensures { output.new ≡ put output.old at (link_before h k output.old) }
{
    let s = h.stream;
    if k == s.count as u64 {
        parts::fill(output, at, s.hashsum_length as usize, 0);
        return;
    }
    let ids = s.ids;
    let start = block_start(h, k);
    let end = start + s.block_size as usize;
    put_hashsum(ids, start, end, at, output);
}

// The hashsum of the bytes from `start` to `end`, digest by digest to an offset before them, so that they stay as they are.
fn put_hashsum(ids: [u64; 4], start: usize, end: usize, at: usize, output: &mut [u8])
    requires { (at + sum_length ids ≤ start) × (start ≤ end) × (end ≤ length output.old) }
    ensures { output.new ≡ put output.old at (hashsum ids (part output.old start (end - start))) }
{
    let mut digest = [0u8; 64];
    let mut place = at;
    for id in ids {
        let n = hashes::digest(id, &output[start..end], &mut digest);
        parts::copy(output, place, &digest[..n]);
        place += n;
    }
}

// The data of block k: the padding's zeros at the front of the first block's, then the file's bytes.
fn put_data(file: &[u8], h: Header, k: u64, at: usize, output: &mut [u8])
    requires { Planned file.now h (length output.old) × (k < h.stream.count) × (at + room_of h ≤ length output.old) }
    ensures { output.new ≡ put output.old at (spec.chunk (order_of file.now h) k) }
{
    let s = h.stream;
    let room = s.block_size as usize - s.hashsum_length as usize;
    let padding = blocks::padding_of(s, k) as usize;
    let n = room - padding;
    let from = k as usize * room + padding - s.padding as usize;
    let data = at + padding;
    parts::fill(output, at, padding, 0);
    parts::copy(output, data, &file[from..from + n]);
}

// The header's fields, in front of the root hash. That 36 bytes are there is asked of the whole output: with an array of
// 36 in its place the promise on the output would need the rest again.
fn put_fields(h: Header, output: &mut [u8])
    requires { (36 ≤ length output.old) × (length h.stream.ids ≡ 4) × ((i : ℕ) → get_or h.stream.ids i 0 < 65536) }
    ensures { output.new ≡ put output.old 0 (header_bytes (header_with h [])) }
{
    let s = h.stream;
    let ids = s.ids;
    put_sizes(h, output);
    put_ids(ids, output);
    h.scheme.put_little(output, 28);
    0u16.put_little(output, 30);
    s.padding.put_little(output, 32);
}

// Magic, count and the sizes.
fn put_sizes(h: Header, output: &mut [u8])
    requires { 36 ≤ length output.old }
    ensures { output.new ≡ put output.old 0
        (little_bytes 4 h.magic ++ little_bytes 4 h.stream.count ++ little_bytes 4 h.stream.block_size
        ++ little_bytes 4 h.signature ++ little_bytes 2 h.header_size ++ little_bytes 2 h.stream.hashsum_length) }
{
    let s = h.stream;
    h.magic.put_little(output, 0);
    s.count.put_little(output, 4);
    s.block_size.put_little(output, 8);
    h.signature.put_little(output, 12);
    h.header_size.put_little(output, 16);
    s.hashsum_length.put_little(output, 18);
}

// The IDs, each at its position.
fn put_ids(ids: [u64; 4], output: &mut [u8])
    requires { (36 ≤ length output.old) × ((i : ℕ) → get_or ids i 0 < 65536) }
    ensures { output.new ≡ put output.old 20 (id_bytes ids) }
{
    for (i, id) in ids.iter().enumerate() {
        (*id as u16).put_little(output, 20 + 2 * i);
    }
}
