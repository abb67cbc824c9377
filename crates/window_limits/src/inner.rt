// No public calls: the refusal of a window's sides, that of a settle count, and that of the received letters of one window.
ghost use Rattle.std.specs.Prelude.{◌≡◌};
ghost use Rattle.coder.specs.Refused.{number_in};
ghost use Rattle.window_limits.specs.Refusal.{sides_refusal, settle_refusal, received_refusal};

use coder::inner::bytes::letters_below;
use coder::inner::tables::Coder;
use coder::refusal::Refusal;

// 8 where a side is above its limit.
#[tactic(auto, unfolding(crate::specs::Refusal::sides_refusal))]
pub fn sides(before: usize, after: usize) -> Result<(), Refusal>
    ensures { number_in result ≡ sides_refusal before after }
{
    if Coder::SIDE < before || Coder::SIDE < after {
        return Err(Refusal::WindowSide);
    }
    Ok(())
}

// 14 where a settle count is above its limit.
#[tactic(auto, unfolding(crate::specs::Refusal::settle_refusal))]
pub fn settle(count: usize) -> Result<(), Refusal>
    ensures { number_in result ≡ settle_refusal count }
{
    if Coder::SETTLE < count {
        return Err(Refusal::SettleCount);
    }
    Ok(())
}

// 9 where there are not n received letters, 11 where a lent buffer is too short, 13 where a letter is not below `outputs`.
pub fn received(n: usize, outputs: usize, received: &[u8], fits: bool) -> Result<(), Refusal>
    ensures { number_in result ≡ received_refusal n outputs received.now fits }
{
    if received.len() != n {
        return Err(Refusal::NumberOfLetters);
    }
    if !fits {
        return Err(Refusal::ShortBuffer);
    }
    if !letters_below(outputs, received) {
        return Err(Refusal::ReceivedLetter);
    }
    Ok(())
}
