ghost use Rattle.std.specs.Prelude.{◌≡◌};
ghost use Rattle.octets.specs.Parts.{same};
ghost use Rattle.answers.specs.Codes.{code_of};
ghost use Rattle.answers.specs.Rules.{first_broken};
ghost use Rattle.chain.specs.Hashsum as spec;

use answers::codes::Refusal;

// Whether the hashsum of a message is the expected one: compared digest by digest, so that none is kept.
pub fn hashsum_is(ids: [u64; 4], message: &[u8], expected: &[u8]) -> bool
    ensures { result ≡ same (spec.hashsum ids message.now) expected.now }
{
    let mut digest = [0u8; 64];
    let mut left = expected;
    for id in ids {
        let n = hashes::digest(id, message, &mut digest);
        match left.strip_prefix(&digest[..n]) {
            Some(rest) => left = rest,
            None => return false,
        }
    }
    left.is_empty()
}

// The length of the hashsums that these IDs give. Written as `map(..).sum()` it left two goals open.
pub fn sum_length(ids: [u64; 4]) -> u64
    ensures { result ≡ spec.sum_length ids }
{
    let mut n = 0;
    for id in ids {
        n += hashes::digest_length(id) as u64;
    }
    n
}

// Whether the IDs may be used.
pub fn judge_ids(ids: [u64; 4]) -> Result<(), Refusal>
    ensures { code_of result ≡ first_broken (spec.id_rules ids) }
{
    if ids[0] == 0 || any_unknown(ids) {
        return Err(Refusal::HashId);
    }
    Ok(())
}

fn any_unknown(ids: [u64; 4]) -> bool
    ensures { result ≡ spec.any_unknown ids }
{
    ids.iter()
        .any(|id| *id != 0 && hashes::digest_length(*id) == 0)
}
