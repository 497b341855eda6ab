// The numbered answers by name, in the order of FORMAT's rules N0 to N29.

ghost use Rattle.std.specs.Prelude.{◌≡◌};
ghost use Rattle.answers.specs.Codes.{number};

// nothing refused: the file was used to its end, or written
pub const DONE: u64 = 0;

// Why a call refuses; each with its number.
#[derive(Clone, Copy, PartialEq, Eq)]
pub enum Refusal {
    // an argument: the answer record's length, the mode, the expected signature length, or too long an image or file
    Argument = 1,
    // the memory map breaks a rule, or the lent memory is not as long as its regions
    Map,
    // the CPUID table breaks a rule, or ends within a record
    Table,
    // the approved header is shorter than the fixed fields, or the image begins otherwise
    Approved,
    // the header's magic number is another
    HeaderMagic,
    // a hash ID that is not supported, or none at the first position
    HashId,
    // the hashsum length is not that of the hash IDs
    HashsumLength,
    // the header size is not that of the hashsum length, or not the approved header's length
    HeaderSize,
    // the signature scheme is another than 1
    Scheme,
    // the header's signature length is not the expected one
    SignatureLength,
    // no blocks, a block size with no room for data or too large, or as much padding as data in a block
    Blocks,
    // the image is not as long as header, signature field and blocks together
    ImageLength,
    // a block's hashsum is not the one that the block before, or the header, says
    BlockHashsum,
    // the first block's padding has a byte that is not zero
    BlockPadding,
    // the last block's hash field has a byte that is not zero
    LastHash,
    // the command file is shorter than its magic number, or begins with another
    FileMagic,
    // too few bytes are left for a command's header, or for the data that its header says
    CommandCut,
    // a command ID that is neither known nor skipped
    CommandId,
    // a data length that the command cannot have
    CommandLength,
    // a range, or an entry, that the mode cannot reach
    NotReachable,
    // a range with a byte in no region of the map
    NotRam,
    // a check's text has no zero byte
    Text,
    // a check where the table is empty: the unit has no CPUID instruction
    CpuidMissing,
    // a check of a result register that does not exist
    Register,
    // a check of inputs that no record of the table has
    NoRecord,
    // a check whose masked register is not the wanted value
    CheckFailed,
    // the file ended and no command had set an entry
    NoEntry,
    // pack: there is no byte to pack
    EmptyFile,
    // open, pack: the lent output is not exactly as long as what goes into it
    OutputLength,
}

impl Refusal {
    // The number of a refusal.
    pub fn code(self) -> u64
        ensures { result ≡ number self }
    {
        self as u64
    }
}
