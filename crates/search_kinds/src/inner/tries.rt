// The carried kinds and the first window for them, from the depths of the product machine, which are the same whatever letters are to be
// told apart: a kind by itself, and then all carried kinds with the letters of different kinds.
ghost use Rattle.std.specs.Prelude.{◌<◌};
ghost use Rattle.mealy.specs.Word.{Has};
ghost use Rattle.coder.specs.Limits.{max_inputs};
ghost use Rattle.kinds.specs.Kinds.{DifferentWithin};
ghost use Rattle.kind_list.specs.KindList.{kind_of, KindsLow};
ghost use Rattle.search_kinds.specs.Letters.{ToldApart};
ghost use Rattle.search_kinds.specs.Tries.{LeastTold, SomeTold, CarriedGiven};

use crate::inner::letters::{apart_words, letters_of};
use fitting::Answer;
use fitting::inner::answer::{UNCOUNTED, answer_of};
use least::inner::Depths;
use values::{Order, Window};

// The first window, in the default order and with settle count 0, that tells letters of the kinds of a set apart and, if asked for, letters
// of different kinds; or none.
pub fn least_window<'a>(
    depths: &'a Depths<'a>,
    kinds: &'a [u8],
    across: bool,
    carried: u16,
) -> Option<Window>
    requires { KindsLow kinds.now }
    ensures { LeastTold depths.now.coder.now depths.now.back depths.now.forward
        (ToldApart across (kind_of kinds.now) (Has carried)) result }
{
    depths.least_for(&apart_words(kinds, across, carried), Order::DEFAULT, 0)
}

// Whether there is a window for the letters of the kind k alone.
fn some_window<'a>(depths: &'a Depths<'a>, kinds: &'a [u8], k: usize) -> bool
    requires { KindsLow kinds.now × (k < max_inputs) }
    ensures { SomeTold depths.now.coder.now depths.now.back depths.now.forward (DifferentWithin (kind_of kinds.now) k) result }
{
    least_window(depths, kinds, false, 1u16 << k).is_some()
}

// Whether the kind k is carried; where it has no two letters, no window is looked for.
fn carries<'a>(depths: &'a Depths<'a>, kinds: &'a [u8], k: usize) -> bool
    requires { KindsLow kinds.now × (k < max_inputs) }
    ensures { SomeTold depths.now.coder.now depths.now.back depths.now.forward (DifferentWithin (kind_of kinds.now) k) result }
{
    match answer_of(letters_of(kinds, k), UNCOUNTED) {
        Answer::Several => some_window(depths, kinds, k),
        Answer::None(_) => true,
        Answer::Letter(_) => true,
    }
}

// The kinds that are carried.
pub fn carried_kinds<'a>(depths: &'a Depths<'a>, kinds: &'a [u8]) -> u16
    requires { KindsLow kinds.now }
    ensures { CarriedGiven depths.now.coder.now depths.now.back depths.now.forward (kind_of kinds.now) result }
{
    let mut carried = 0u16;
    for k in 0..depths.coder.inputs {
        if carries(depths, kinds, k) {
            carried |= 1u16 << k;
        }
    }
    carried
}
