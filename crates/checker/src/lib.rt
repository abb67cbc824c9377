// The checker of looped pairs from anyone. docs/public-calls.md describes the call.
#![tactic(auto)]

ghost use Rattle.values.specs.Pair.{pair_of};
ghost use Rattle.checker.specs.Check.{CheckPromise};

use coder::refusal::Refusal;
use values::LoopedPair;

pub mod inner; // inner.rt: what the crates above call on checked bytes; no public calls

// Whether a looped pair is valid: its starts and lengths, and two bytes for each letter. The file's refusals, 7, 9, 12.
pub fn check(file: &[u8], pair: LoopedPair, letters: &[u8]) -> Result<bool, Refusal>
    ensures { CheckPromise file.now (pair_of pair letters.now) result }
{
    inner::check(file, pair, letters, true)
}
