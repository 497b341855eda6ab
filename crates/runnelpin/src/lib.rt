// The calls that a boot stub in C makes: every number is 64 bits wide, a slice is a pointer and a length.
#![tactic(auto)]

ghost use Rattle.std.specs.Prelude.{[], ◌∷◌, ◌≡◌};
ghost use Rattle.octets.specs.Parts.{part};
ghost use Rattle.chain.specs.Open.{opened, signature_field};
ghost use Rattle.chain.specs.Pack.{packed};
ghost use Rattle.loader.specs.Load.{loaded};
ghost use Rattle.machine.specs.Bare.{run_bare};
ghost use Rattle.runnelpin.specs.Field.{field_of};

// A part of a lent slice, which C cannot be given as a slice: its offset, and how many bytes it has.
#[repr(C)]
#[derive(Clone, Copy)]
pub struct Field {
    pub start: u64,
    pub length: u64,
}

// Opens an image: proves its blocks, and copies the file to the output.
#[unsafe(no_mangle)]
pub extern "C" fn runnelpin_open(
    image: &[u8],
    header: &[u8],
    signature_length: u64,
    output: &mut [u8],
    answer: &mut [u8],
) -> u64
    ensures { opened image.now header.now signature_length output.old answer.old
        ≡ record { code = result; answer = answer.new; lent = output.new } }
{
    chain::open::open(image, header, signature_length, output, answer)
}

// Packs a file into an image with a zeroed signature field.
#[unsafe(no_mangle)]
pub extern "C" fn runnelpin_pack(
    file: &[u8],
    id1: u64,
    id2: u64,
    id3: u64,
    id4: u64,
    block_size: u64,
    signature_length: u64,
    output: &mut [u8],
) -> u64
    ensures { packed (record {
      file = file.entry.now;
      ids = id1 ∷ id2 ∷ id3 ∷ id4 ∷ [];
      block_size = block_size;
      signature = signature_length;
    }) output.old
        ≡ record { code = result; output = output.new } }
{
    chain::pack::pack(
        file,
        id1,
        id2,
        id3,
        id4,
        block_size,
        signature_length,
        output,
    )
}

// The signature field of an image, for the chip: where it lies in the image; 0 and 0 where it is empty.
#[unsafe(no_mangle)]
pub extern "C" fn runnelpin_signature(image: &[u8], header: &[u8], signature_length: u64) -> Field
    ensures value { result ≡ field_of image.now header.now signature_length }
    ensures length_value { part image.now result.start result.length
        ≡ signature_field image.now header.now signature_length }
{
    let field = chain::open::signature_field(image, header, signature_length);
    let start = if field.is_empty() {
        0
    } else {
        header.len() as u64
    };
    let length = field.len() as u64;
    Field { start, length }
}

// Runs a command file that stands in no image.
#[unsafe(no_mangle)]
pub extern "C" fn runnelpin_run(
    file: &[u8],
    map: &[u8],
    cpuid: &[u8],
    mode: u64,
    memory: &mut [u8],
    answer: &mut [u8],
) -> u64
    ensures { run_bare (record { file = file.entry.now; map = map.now; table = cpuid.now; mode = mode })
        memory.old answer.old
        ≡ record { code = result; answer = answer.new; lent = memory.new } }
{
    machine::bare::run_bare(file, map, cpuid, mode, memory, answer)
}

// Loads an image: proves its blocks and runs its commands, each byte stored as soon as its block is proved.
#[unsafe(no_mangle)]
pub extern "C" fn runnelpin_load(
    image: &[u8],
    header: &[u8],
    map: &[u8],
    cpuid: &[u8],
    mode: u64,
    signature_length: u64,
    memory: &mut [u8],
    answer: &mut [u8],
) -> u64
    ensures { loaded (record {
      image = image.entry.now;
      approved = header.now;
      map = map.now;
      table = cpuid.now;
      mode = mode;
      signature = signature_length;
    })
        memory.old answer.old
        ≡ record { code = result; answer = answer.new; lent = memory.new } }
{
    loader::load(
        image,
        header,
        map,
        cpuid,
        mode,
        signature_length,
        memory,
        answer,
    )
}
