// The letters that a window for kinds has to tell apart, as words: word i has the letters that conflict with i.
ghost use Rattle.std.specs.Prelude.{◌<◌};
ghost use Rattle.mealy.specs.Word.{Has, Holds};
ghost use Rattle.coder.specs.Limits.{max_inputs};
ghost use Rattle.setting.specs.Words.{ConflictsOf};
ghost use Rattle.kinds.specs.Kinds.{DifferentKinds};
ghost use Rattle.kind_list.specs.KindList.{kind_of, KindsLow};
ghost use Rattle.search_kinds.specs.Letters.{OfKind, SameKind, ToldApart};

use coder::inner::tables::Coder;
use kind_list::inner::kind_of;
use setting::inner::has;

// The letters of a kind.
pub fn letters_of(kinds: &[u8], k: usize) -> u16
    ensures { Holds (OfKind (kind_of kinds.now) k) result }
{
    let mut set = 0u16;
    for j in 0..Coder::INPUTS {
        if kind_of(kinds, j) == k {
            set |= 1u16 << j;
        }
    }
    set
}

// The other letters of the kind of i, where that kind is in a set.
fn same_kind(kinds: &[u8], carried: u16, i: usize) -> u16
    requires { KindsLow kinds.now × (i < max_inputs) }
    ensures { Holds (λ j. (j < max_inputs) × SameKind (kind_of kinds.now) (Has carried) i j) result }
{
    let k = kind_of(kinds, i);
    if has(carried, k) {
        return letters_of(kinds, k) & (65535 - (1u16 << i));
    }
    0
}

// The letters of another kind than i.
fn other_kinds(kinds: &[u8], i: usize) -> u16
    ensures { Holds (λ j. (j < max_inputs) × DifferentKinds (kind_of kinds.now) i j) result }
{
    65535 - letters_of(kinds, kind_of(kinds, i))
}

// The letters that are to be told apart from i: other letters of its kind, where that kind is in the set, and, if asked for, letters of
// other kinds. `across` is data of that relation, as the set is.
fn apart(kinds: &[u8], across: bool, carried: u16, i: usize) -> u16
    requires { KindsLow kinds.now × (i < max_inputs) }
    ensures { Holds (λ j. (j < max_inputs) × ToldApart across (kind_of kinds.now) (Has carried) i j) result }
{
    let same = same_kind(kinds, carried, i);
    if across {
        return same | other_kinds(kinds, i);
    }
    same
}

// The same for every letter.
pub fn apart_words(kinds: &[u8], across: bool, carried: u16) -> [u16; 16]
    requires { KindsLow kinds.now }
    ensures { ConflictsOf (ToldApart across (kind_of kinds.now) (Has carried)) result }
{
    let mut words = [0u16; 16];
    for (i, word) in words.iter_mut().enumerate() {
        *word = apart(kinds, across, carried, i);
    }
    words
}
