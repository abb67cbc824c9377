// No public calls: the decoder's refusal, the decoder on a checked file, and with lent buffers.
ghost use Rattle.std.specs.Prelude.{◌≡◌, true};
ghost use Rattle.coder.specs.Refused.{number_in};
ghost use Rattle.window_kinds.specs.Window.{window_kinds_refusal, RightKindsOf, WindowKindsWith};

use crate::KindsAnswer;
use crate::inner::answer::kinds_answer;
use coder::refusal::Refusal;
use decoder::inner::checked::letters;
use values::Window;
use window_limits::inner::sides;

pub mod answer; // answer.rt: the answer for kinds that a set of letters stands for

// The refusals of the decoder of kinds: those of the kind list, of the sides, and of the received letters. `fits` says whether all lent
// buffers are long enough.
#[tactic(auto, unfolding(crate::specs::Window::window_kinds_refusal))]
fn refusal(
    file: &[u8],
    kinds: &[u8],
    before: usize,
    after: usize,
    received: &[u8],
    fits: bool,
) -> Result<(), Refusal>
    ensures { number_in result ≡ window_kinds_refusal file.now kinds.now before after received.now fits }
{
    kind_list::inner::refusal(file, kinds)?;
    sides(before, after)?;
    window_limits::inner::received(before + 1 + after, usize::from(file[5]), received, fits)
}

// The answer for kinds of a window of received letters, which is not refused.
fn checked(file: &[u8], kinds: &[u8], before: usize, after: usize, received: &[u8]) -> KindsAnswer
    requires { window_kinds_refusal file.now kinds.now before after received.now true ≡ 0 }
    ensures { RightKindsOf file.now kinds.now before received.now result }
{
    let w = Window {
        before,
        after,
        settle: 0,
    };
    kinds_answer(kinds, letters(file, w, received))
}

// The decoder of kinds, where `others` says whether the lent buffers are long enough: it has none of its own.
#[tactic(auto, using(crate::proofs::Accepting::window_kinds_asked))]
pub fn window_kinds(
    file: &[u8],
    kinds: &[u8],
    before: usize,
    after: usize,
    received: &[u8],
    others: bool,
) -> Result<KindsAnswer, Refusal>
    ensures { WindowKindsWith file.now kinds.now before after received.now others result }
{
    refusal(file, kinds, before, after, received, others)?;
    Ok(checked(file, kinds, before, after, received))
}
