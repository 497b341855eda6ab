ghost use Rattle.std.specs.Prelude.{◌≡◌};
ghost use Rattle.answers.specs.Codes.{code_of};
ghost use Rattle.answers.specs.Rules.{first_broken, signature_rules, size_rules};

use crate::codes::Refusal;

// The most bytes that an image or a command file may have.
pub const LARGEST: u64 = 1073741824;

// Whether a signature of this length may be expected.
pub fn judge_signature(signature: u64) -> Result<(), Refusal>
    ensures { code_of result ≡ first_broken (signature_rules signature) }
{
    if signature == 0 {
        return Err(Refusal::Argument);
    }
    if 4096 < signature {
        return Err(Refusal::Argument);
    }
    Ok(())
}

// Whether an image or command file may be this long.
pub fn judge_size(bytes: u64) -> Result<(), Refusal>
    ensures { code_of result ≡ first_broken (size_rules bytes) }
{
    if LARGEST < bytes {
        return Err(Refusal::Argument);
    }
    Ok(())
}
