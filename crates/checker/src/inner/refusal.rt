// The refusal of a check.
ghost use Rattle.std.specs.Prelude.{◌≡◌, ◌≤◌, ◌*◌, eqb, [], MatchOption};
ghost use Rattle.mealy.specs.LoopedPair.{letters as letters_of};
ghost use Rattle.coder.specs.Refused.{number_in};
ghost use Rattle.values.specs.Pair.{pair_of};
ghost use Rattle.checker.specs.Check.{check_refusal};

use coder::inner::bytes::letters_below;
use coder::refusal::Refusal;
use values::LoopedPair;

// How many letters a pair has; `None` where no usize is as large.
fn letters(pair: LoopedPair) -> Option<usize>
    ensures { MatchOption result (18446744073709551616 ≤ letters_of (pair_of pair [])) (λ n. n ≡ letters_of (pair_of pair [])) }
{
    pair.back_loop
        .checked_add(pair.lead_in)?
        .checked_add(pair.lead_out)?
        .checked_add(pair.forward_loop)?
        .checked_add(1)
}

// Whether n bytes are twice the letters of a pair.
fn twice(n: usize, pair: LoopedPair) -> bool
    ensures { result ≡ eqb n (2 * letters_of (pair_of pair [])) }
{
    n % 2 == 0 && letters(pair) == Some(n / 2)
}

// The refusal of a check. `fits` says whether all lent buffers are long enough.
#[tactic(auto, using(coder::proofs::Accepted::accepted_long), unfolding(crate::specs::Check::check_refusal))]
pub fn check(file: &[u8], pair: LoopedPair, letters: &[u8], fits: bool) -> Result<(), Refusal>
    ensures { number_in result ≡ check_refusal file.now (pair_of pair letters.now) fits }
{
    reader::inner::refusal(file)?;
    let states = usize::from(file[3]);
    if states <= pair.s || states <= pair.t {
        return Err(Refusal::StartState);
    }
    if !twice(letters.len(), pair) {
        return Err(Refusal::NumberOfLetters);
    }
    if !fits {
        return Err(Refusal::ShortBuffer);
    }
    if !letters_below(usize::from(file[4]), letters) {
        return Err(Refusal::InputLetter);
    }
    Ok(())
}
