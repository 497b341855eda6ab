// The hashes for programs in C and Rust that test and time them.
#![tactic(auto)]

ghost use Rattle.std.specs.Prelude.{◌≡◌};
ghost use Rattle.hashes.specs.Code.{in_sixty_four};
ghost use Rattle.hashes.specs.Digests.{digest as digest_of, digest_length};
ghost use Rattle.probe.specs.Written.{written};

// Writes the digest of `message` into `out`, zeros after it, and gives its length. Where `out` is not of 64 bytes it stays as it is.
#[unsafe(no_mangle)]
pub extern "C" fn probe_digest(id: u64, message: &[u8], out: &mut [u8]) -> u64
    ensures value { result ≡ digest_length id }
    ensures out_after { out.new ≡ written out.old (in_sixty_four (digest_of id message.now)) }
{
    match out.as_mut_array::<64>() {
        Some(out) => hashes::digest(id, message, out) as u64,
        None => hashes::digest_length(id) as u64,
    }
}
