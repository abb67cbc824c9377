// The answer for kinds that a set of letters stands for.
ghost use Rattle.std.specs.Prelude.{◌≡◌, ◌<◌};
ghost use Rattle.coder.specs.Limits.{max_inputs};
ghost use Rattle.kind_list.specs.KindList.{kind_of, KindsLow};
ghost use Rattle.window_kinds.specs.Answer.{of_kind, shared, kind_or_several, kinds_answer_of};

use crate::KindsAnswer;
use coder::inner::tables::Coder;
use fitting::Answer;
use fitting::inner::answer::{UNCOUNTED, answer_of};
use kind_list::inner::kind_of;
use setting::inner::has;

// Whether x has the kind k if it is in a set.
fn of_kind(kinds: &[u8], set: u16, k: usize, x: usize) -> bool
    requires { x < max_inputs }
    ensures { result ≡ of_kind (kind_of kinds.now) set k x }
{
    !has(set, x) || kind_of(kinds, x) == k
}

// Whether every letter of a set has the kind k.
fn share(kinds: &[u8], set: u16, k: usize) -> bool
    ensures { result ≡ shared (kind_of kinds.now) set k }
{
    for x in 0..Coder::INPUTS {
        if !of_kind(kinds, set, k, x) {
            return false;
        }
    }
    true
}

// The answer of a set of two letters or more: the kind of its least letter, where all share it.
fn kind_or_several(kinds: &[u8], set: u16) -> KindsAnswer
    requires { KindsLow kinds.now }
    ensures { result ≡ kind_or_several (kind_of kinds.now) set }
{
    let k = kind_of(kinds, u16::trailing_zeros(set) as usize);
    if share(kinds, set, k) {
        let kind = k as u8;
        return KindsAnswer::Kind(kind);
    }
    KindsAnswer::Several
}

// The letter where one alone is in the set, the kind where all share one, several where they do not, none where there is no letter,
// with no count.
pub fn kinds_answer(kinds: &[u8], set: u16) -> KindsAnswer
    requires { KindsLow kinds.now }
    ensures { result ≡ kinds_answer_of (kind_of kinds.now) set }
{
    let a = answer_of(set, UNCOUNTED);
    match a {
        Answer::Letter(x) => KindsAnswer::Letter(x),
        Answer::None(_) => KindsAnswer::None,
        Answer::Several => kind_or_several(kinds, set),
    }
}
