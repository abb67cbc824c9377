// No public calls: what the library's own crates call on checked bytes and on tables. Some of these have a `requires`.
ghost use Rattle.std.specs.Prelude.{true, ◌≡◌};
ghost use Rattle.mealy.specs.LoopedPair.{Valid};
ghost use Rattle.coder.specs.File.{setting_of};
ghost use Rattle.coder.specs.Refusal.{Judges};
ghost use Rattle.values.specs.Pair.{pair_of};
ghost use Rattle.checker.specs.Check.{check_refusal, CheckWith};

use coder::inner::tables::Coder;
use coder::refusal::Refusal;
use values::LoopedPair;

pub mod refusal; // refusal.rt: the refusal of a check

// Whether a pair that is not refused is valid.
fn checked(file: &[u8], pair: LoopedPair, letters: &[u8]) -> bool
    requires { check_refusal file.now (pair_of pair letters.now) true ≡ 0 }
    ensures { Judges (Valid (setting_of file.now) (pair_of pair letters.now)) result }
{
    let c = Coder::from_checked(file);
    let starts = starts::inner::start_states(&c, 0);
    let conflicts = setting::inner::different_letters();
    valid_pair::inner::follow::valid(&c, starts, &conflicts, pair, letters)
}

// Whether a pair is valid, where `others` says whether all lent buffers are long enough.
#[tactic(auto, using(crate::proofs::Checking::check_asked))]
pub fn check(file: &[u8], pair: LoopedPair, letters: &[u8], others: bool) -> Result<bool, Refusal>
    ensures { CheckWith file.now (pair_of pair letters.now) others result }
{
    refusal::check(file, pair, letters, others)?;
    Ok(checked(file, pair, letters))
}
