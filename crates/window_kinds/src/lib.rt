// The decoder of kinds of letter. docs/public-calls.md describes the call.
#![tactic(auto)]

ghost use Rattle.window_kinds.specs.Window.{WindowKindsPromise};

use coder::refusal::Refusal;

pub mod inner; // inner.rt: the decoder with lent buffers; no public calls

// What the letters of one window say: the letter that alone fits, else the kind that all fitting letters share; no letter, or letters of
// several kinds.
#[derive(Clone, Copy, PartialEq, Eq)]
pub enum KindsAnswer {
    Letter(u8),
    Kind(u8),
    None,
    Several,
}

// Decodes one window of received letters, with settle count 0, to a letter or a kind. `kinds` has a byte for each input letter. The file's
// refusals, 16, 8, 9, 13.
pub fn window_kinds(
    file: &[u8],
    kinds: &[u8],
    before: usize,
    after: usize,
    received: &[u8],
) -> Result<KindsAnswer, Refusal>
    ensures { WindowKindsPromise file.now kinds.now before after received.now result }
{
    inner::window_kinds(file, kinds, before, after, received, true)
}
