ghost use Rattle.std.specs.Prelude.{◌≡◌};
ghost use Rattle.answers.specs.Codes.{code_of};
ghost use Rattle.answers.specs.Rules.{first_broken};
ghost use Rattle.board.specs.Reach.{mode_rules, limit, reachable};

use answers::codes::Refusal;

// Mode is 32 or 64. It stays a number: C gives it, and `machine::take_piece` promises for every one.
pub fn judge_mode(mode: u64) -> Result<(), Refusal>
    ensures { code_of result ≡ first_broken (mode_rules mode) }
{
    match mode {
        32 | 64 => Ok(()),
        _ => Err(Refusal::Argument),
    }
}

// The reach limit of a mode.
pub fn reach_limit(mode: u64) -> u64
    ensures { result ≡ limit mode }
{
    if mode == 32 {
        return 4294967296;
    }
    4503599627370496
}

// Whether a range of `n` bytes at `a` ends at the limit or below it; the sum of the two is not made, it could wrap.
pub fn is_reachable(top: u64, a: u64, n: u64) -> bool
    ensures { result ≡ reachable top a n }
{
    a < top && n <= top - a
}
