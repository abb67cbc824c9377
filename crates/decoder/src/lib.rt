// The decoder: one window, a string, a table. docs/public-calls.md describes the calls.
#![tactic(auto)]

ghost use Rattle.decoder.specs.Window.{WindowPromise};
ghost use Rattle.decoder.specs.Places.{StringPromise};
ghost use Rattle.decoder.specs.Table.{TablePromise};

use coder::refusal::Refusal;
use fitting::Answer;
use inner::calls;
use values::Window;

pub mod inner; // inner.rt: what the crates above call on checked bytes; no public calls

// Decodes one window of received letters: the letter that alone fits, none, or several. The file's refusals, 8, 14, 9, 13.
pub fn window(file: &[u8], w: Window, received: &[u8]) -> Result<Answer, Refusal>
    ensures { WindowPromise file.now w received.now result }
{
    calls::window(file, w, received, true)
}

// Decodes each place of a string that has a full window. The file's refusals, 8, 14, 11, 13.
pub fn string(file: &[u8], w: Window, received: &[u8], output: &mut [u8]) -> Result<usize, Refusal>
    ensures { StringPromise file.now w received.now output.old result output.new }
{
    calls::string(file, w, received, output, true)
}

// Fills the decoder table: a byte for each window, by its index. The file's refusals, 8, 14, 10, 11.
pub fn table(file: &[u8], w: Window, table: &mut [u8]) -> Result<usize, Refusal>
    ensures { TablePromise file.now w table.old result table.new }
{
    calls::table(file, w, table, true)
}
