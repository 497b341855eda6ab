ghost use Rattle.std.specs.Prelude.{◌≡◌, ◌+◌, ◌≤◌, length};
ghost use Rattle.octets.specs.Parts.{put};
ghost use Rattle.answers.specs.Rules.{first_broken};
ghost use Rattle.chain.specs.Blocks.{block_of, file_up_to};
ghost use Rattle.chain.specs.ContractWords.{Answered, OpensTo};
ghost use Rattle.chain.specs.Header.{header_of, file_length};
ghost use Rattle.chain.specs.Images.{approved_header, block_in};
ghost use Rattle.chain.specs.Open as spec;

use crate::blocks::Image;
use crate::header;
use answers::Answer;
use answers::codes::Refusal;
use octets::parts;

// Proves an image's blocks one by one, and copies the file out as far as they are proved. Parameters and result are those
// of the C call.
pub fn open(
    image: &[u8],
    header: &[u8],
    signature_length: u64,
    output: &mut [u8],
    answer: &mut [u8],
) -> u64
    ensures { spec.opened image.now header.now signature_length output.old answer.old
        ≡ record { code = result; answer = answer.new; lent = output.new } }
{
    if answer.len() != answers::RECORD_LENGTH {
        return Refusal::Argument.code();
    }
    let a = open_answer(image, header, signature_length, output);
    answers::write_answer(answer, a)
}

// The signature field: the bytes between header and first block, as a part of the image; none where open would give 1 or 4 to 12.
// An empty part and no `Option`: the customer gave the form (docs/PROMISES.md), and C is given a part.
pub fn signature_field<'a>(image: &'a [u8], header: &[u8], signature: u64) -> &'a [u8]
    ensures result_value { result.now ≡ spec.signature_field image.now header.now signature }
    ensures ref_ptr_value { result.ref_ptr
        ≡ (image.entry.ref_ptr.0, image.entry.ref_ptr.1 + spec.field_start image.now header.now signature) }
{
    if header::stream_judged(image, header, signature).is_err() {
        return &image[0..0];
    }
    let start = header.len();
    let end = start + signature as usize;
    &image[start..end]
}

// Open's answer: the refusal by 1, 4 to 12 or 29, or how far the blocks are proved, with the file's bytes in them copied out.
fn open_answer(image: &[u8], approved: &[u8], signature: u64, output: &mut [u8]) -> Answer
    ensures { Answered
        (first_broken (spec.open_rules image.now approved.now signature (length output.old)))
        (header_of approved.now) (block_of image.now (header_of approved.now))
        output.old result output.new }
{
    opened(image, approved, signature, output).unwrap_or_else(Answer::refused)
}

// The answer where nothing of these is refused.
fn opened(
    image: &[u8],
    approved: &[u8],
    signature: u64,
    output: &mut [u8],
) -> Result<Answer, Refusal>
    ensures { OpensTo
        (first_broken (spec.open_rules image.now approved.now signature (length output.old)))
        (header_of approved.now) (block_of image.now (header_of approved.now))
        output.old result output.new }
{
    let image = header::stream_judged(image, approved, signature)?;
    if output.len() as u64 != header::file_length(image.stream) {
        return Err(Refusal::OutputLength);
    }
    let p = image.proved();
    let stored = copy_file(image, p.count, output);
    Ok(answers::told(p.stop, 0, stored as u64, 0))
}

// Copies the file's bytes in the first blocks out; how many they are.
fn copy_file(image: Image, blocks: u64, output: &mut [u8]) -> usize
    requires among { blocks ≤ image.stream.count }
    requires exact { length output.old ≡ file_length (approved_header image).stream }
    ensures output_after { output.new
        ≡ put output.old 0 (file_up_to (approved_header image.entry).stream (block_in image.entry) blocks) }
    ensures value { result ≡ length (file_up_to (approved_header image.entry).stream (block_in image.entry) blocks) }
{
    let mut at = 0;
    for k in 0..blocks {
        let bytes = image.file_bytes(k);
        parts::copy(output, at, bytes);
        at += bytes.len();
    }
    at
}
