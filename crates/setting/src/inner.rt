// No public calls: whether states are start states, and the letters that a window has to tell apart. A set is a word of 16 bits: bit
// x is set where x is in it.
ghost use Rattle.std.specs.Prelude.{◌<◌, ◌≢◌};
ghost use Rattle.mealy.specs.Word.{Has};
ghost use Rattle.coder.specs.Refusal.{Judges};
ghost use Rattle.setting.specs.Words.{StartIn, BothStart, ConflictsOf};

use std::array;

pub mod members; // members.rt: the members of a set, the least first

// Whether x is in a set.
pub fn has(set: u16, x: usize) -> bool
    requires { x < 16 }
    ensures { Judges (Has set x) result }
{
    (set >> x) % 2 == 1
}

// Whether s is a start state.
fn is_start(states: usize, starts: u16, s: usize) -> bool
    requires { s < 16 }
    ensures { Judges (StartIn states starts s) result }
{
    s < states && has(starts, s)
}

// Whether both states of a pair are start states.
pub fn both_start(states: usize, starts: u16, u: usize, v: usize) -> bool
    requires { (u < 16) × (v < 16) }
    ensures { Judges (BothStart states starts u v) result }
{
    is_start(states, starts, u) && is_start(states, starts, v)
}

// For each input letter the letters that conflict with it: those that differ from it.
pub fn different_letters() -> [u16; 16]
    ensures { ConflictsOf (λ i j. i ≢ j) result }
{
    array::from_fn(|i| 65535 - (1u16 << i))
}
