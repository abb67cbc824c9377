// The refusals of the three calls. `others` says whether the lent buffers besides the one of `room` bytes are long enough.
ghost use Rattle.std.specs.Prelude.{◌≡◌};
ghost use Rattle.coder.specs.Refused.{number_in};
ghost use Rattle.decoder_refusal.specs.Refusal.{limits_refusal, window_refusal};
ghost use Rattle.decoder_refusal.specs.Refusal.{string_refusal_in};
ghost use Rattle.decoder_refusal.specs.Refusal.{table_refusal_in};

use crate::inner::sizes;
use coder::inner::bytes::letters_below;
use coder::refusal::Refusal;
use table_size::inner::{allowed, size};
use values::Window;
use window_limits::inner::{settle, sides};

// The file's, 8 and 14.
#[tactic(auto, unfolding(crate::specs::Refusal::limits_refusal))]
pub fn limits(file: &[u8], w: Window) -> Result<(), Refusal>
    ensures { number_in result ≡ limits_refusal file.now w }
{
    reader::inner::refusal(file)?;
    sides(w.before, w.after)?;
    settle(w.settle)
}

// The refusals of a single window. `fits` says whether all lent buffers are long enough.
#[tactic(auto, unfolding(crate::specs::Refusal::window_refusal))]
pub fn window(file: &[u8], w: Window, received: &[u8], fits: bool) -> Result<(), Refusal>
    ensures { number_in result ≡ window_refusal file.now w received.now fits }
{
    limits(file, w)?;
    window_limits::inner::received(sizes::letters(w), usize::from(file[5]), received, fits)
}

// The refusals of a string.
#[tactic(auto, unfolding(crate::specs::Refusal::string_refusal))]
pub fn string(
    file: &[u8],
    w: Window,
    received: &[u8],
    room: usize,
    others: bool,
) -> Result<(), Refusal>
    ensures { number_in result ≡ string_refusal_in file.now w received.now room others }
{
    limits(file, w)?;
    if room < sizes::places(received.len(), w) || !others {
        return Err(Refusal::ShortBuffer);
    }
    if !letters_below(usize::from(file[5]), received) {
        return Err(Refusal::ReceivedLetter);
    }
    Ok(())
}

// The refusals of a table.
#[tactic(auto, unfolding(crate::specs::Refusal::table_refusal))]
pub fn table(file: &[u8], w: Window, room: usize, others: bool) -> Result<(), Refusal>
    ensures { number_in result ≡ table_refusal_in file.now w room others }
{
    limits(file, w)?;
    let outputs = usize::from(file[5]);
    let n = sizes::letters(w);
    if !allowed(outputs, n) {
        return Err(Refusal::TableSize);
    }
    if room < size(outputs, n) || !others {
        return Err(Refusal::ShortBuffer);
    }
    Ok(())
}
