// The three calls: the refusal, and where there is none the checked part. `others` says whether the lent buffers besides a call's own are
// long enough.
ghost use Rattle.decoder.specs.Window.{WindowWith};
ghost use Rattle.decoder.specs.Places.{StringWith};
ghost use Rattle.decoder.specs.Table.{TableWith};

use crate::inner::checked;
use coder::refusal::Refusal;
use decoder_refusal::inner::refusal;
use fitting::Answer;
use values::Window;

// Decodes one window of received letters.
#[tactic(auto, using(decoder_refusal::proofs::Accepting::window_asked))]
pub fn window(file: &[u8], w: Window, received: &[u8], others: bool) -> Result<Answer, Refusal>
    ensures { WindowWith file.now w received.now others result }
{
    refusal::window(file, w, received, others)?;
    Ok(checked::window(file, w, received))
}

// Decodes each place of a string that has a full window.
#[tactic(auto, using(crate::proofs::Asking::string_asked))]
pub fn string(
    file: &[u8],
    w: Window,
    received: &[u8],
    output: &mut [u8],
    others: bool,
) -> Result<usize, Refusal>
    ensures { StringWith file.now w received.now output.old others result output.new }
{
    refusal::string(file, w, received, output.len(), others)?;
    Ok(checked::string(file, w, received, output))
}

// Fills the decoder table: a byte for each window, by its index.
#[tactic(auto, using(crate::proofs::Asking::table_asked))]
pub fn table(file: &[u8], w: Window, table: &mut [u8], others: bool) -> Result<usize, Refusal>
    ensures { TableWith file.now w table.old others result table.new }
{
    refusal::table(file, w, table.len(), others)?;
    Ok(checked::table(file, w, table))
}
