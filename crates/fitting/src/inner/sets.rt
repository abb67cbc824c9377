// Sets of states along received letters: those that follow, those that lead to them, and the input letters of the entries between two sets.
ghost use Rattle.std.specs.Prelude.{◌≡◌, ℕ, ◌+◌, ◌*◌, ◌<◌, get_or};
ghost use Rattle.mealy.specs.Machine.{Letters};
ghost use Rattle.mealy.specs.Word.{Has, Holds};
ghost use Rattle.mealy.specs.Image.{Image, Following, FarIn, Leading};
ghost use Rattle.coder.specs.Limits.{max_states, max_inputs, max_outputs};
ghost use Rattle.fitting.specs.Tables.{Words, Leads, Between};

use coder::inner::tables::Coder;
use setting::inner::has;
use setting::inner::members::Members;

// The union of the words of output letter o over a set of states: with the successors, the states that follow them.
pub fn image(words: &[u16; 1024], o: usize, set: u16) -> u16
    requires { Words words.now × (o < max_outputs) }
    ensures { Holds (Image (Leads words.now o) (Has set)) result }
{
    let mut to = 0u16;
    for s in Members::of(set) {
        to |= words[Coder::STATES * o + s];
    }
    to
}

// The states after all letters of w.
pub fn follow(successors: &[u16; 1024], w: &[u8], set: u16) -> u16
    requires { Words successors.now × Letters max_outputs w.now }
    ensures { Holds (Following (Leads successors.now) (Has set) w.now) result }
{
    let mut to = set;
    for &y in w {
        if to == 0 {
            return 0;
        }
        to = image(successors, usize::from(y), to);
    }
    to
}

// How many letters of w, from the first on, lead to some state from those of a set, which is not empty: all, or those before the one that
// leads to none.
pub fn how_far(successors: &[u16; 1024], w: &[u8], set: u16) -> usize
    requires { Words successors.now × Letters max_outputs w.now × (set ≡ 0 → ⊥) }
    ensures { FarIn (Leads successors.now) (Has set) w.now result }
{
    let mut to = set;
    for (k, &y) in w.iter().enumerate() {
        let next = image(successors, usize::from(y), to);
        if next == 0 {
            return k;
        }
        to = next;
    }
    w.len()
}

// The states from which all letters of w can be produced.
pub fn lead(predecessors: &[u16; 1024], w: &[u8]) -> u16
    requires { Words predecessors.now × Letters max_outputs w.now }
    ensures { Holds (Leading (Leads predecessors.now) (λ s. s < max_states) w.now) result }
{
    let mut from = 65535u16;
    for &y in w.iter().rev() {
        if from == 0 {
            return 0;
        }
        from = image(predecessors, usize::from(y), from);
    }
    from
}

// The letter x where the entry of state s on it leads to a state of the set `from`.
fn on_letter(next: &[u8; 256], s: usize, x: usize, from: u16) -> u16
    requires { (s < max_states) × (x < max_inputs) × ((k : ℕ) → get_or next.now k 0 < max_states) }
    ensures { Holds (λ y. (y ≡ x) × Has from (get_or next.now (16 * s + x) 0)) result }
{
    if has(from, usize::from(next[Coder::INPUTS * s + x])) {
        1u16 << x
    } else {
        0
    }
}

// Of a set of letters those on which the entries of state s lead to states of the set `from`.
fn of_state(next: &[u8; 256], s: usize, letters: u16, from: u16) -> u16
    requires { (s < max_states) × ((k : ℕ) → get_or next.now k 0 < max_states) }
    ensures { Holds (λ x. Has letters x × Has from (get_or next.now (16 * s + x) 0)) result }
{
    let mut fit = 0u16;
    for x in Members::of(letters) {
        fit |= on_letter(next, s, x, from);
    }
    fit
}

// The letters of the entries with output letter o that lead from the states of `set` to states of `from`.
pub fn between(next: &[u8; 256], letters: &[u16; 1024], o: usize, set: u16, from: u16) -> u16
    requires { Words letters.now × (o < max_outputs) × ((k : ℕ) → get_or next.now k 0 < max_states) }
    ensures { Holds (Image (Between next.now letters.now o from) (Has set)) result }
{
    let mut fit = 0u16;
    for s in Members::of(set) {
        fit |= of_state(next, s, letters[Coder::STATES * o + s], from);
    }
    fit
}
