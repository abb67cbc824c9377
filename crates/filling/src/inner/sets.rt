// A set of letters for each state, one received letter after the other. A set is a word: bit x is set where letter x is in it.
ghost use Rattle.std.specs.Prelude.{◌≡◌, ℕ, ◌<◌, length, get_or};
ghost use Rattle.mealy.specs.Word.{Holds};
ghost use Rattle.coder.specs.Limits.{max_states, max_outputs};
ghost use Rattle.coder.specs.declared.inner.tables.Coder.{Coder};
ghost use Rattle.filling.specs.Runs.{EachWord, LetterAfter};
ghost use Rattle.filling.specs.Sets.{RowsAsked, RowsOf, contribution as contribution_of, added, start_sets};

use chains::inner::Rows;
use coder::inner::tables::Coder;
use std::array;

pub const EMPTY: u16 = 0;

// What the entry at place p gives to its next state: at the present place its letter, elsewhere the set u of its own state, and
// nothing where that set is empty. Which place it is, is data of what a table says, as the set is.
fn contribution(here: bool, p: usize, u: u16) -> u16
    ensures { result ≡ contribution_of here p u }
{
    if u == EMPTY {
        EMPTY
    } else if here {
        1u16 << (p % Coder::INPUTS)
    } else {
        u
    }
}

// Adds to the sets `to` what the states with the sets v give to their next states on one received letter.
pub fn advance(
    next: &[u8; 256],
    rows: &Rows,
    v: &[u16; 16],
    o: usize,
    here: bool,
    to: &mut [u16; 16],
)
    requires { RowsAsked rows.now.start rows.now.entries × ((p : ℕ) → get_or next.now p 0 < max_states) × (o < max_outputs) × (length to.old ≡ 16) }
    ensures { (c : Coder) → RowsOf c rows.now.start rows.now.entries → to.new ≡ added c next.now v.now o here to.old }
{
    // By places and not over a slice of the entries, which would ask that the starts rise.
    for j in usize::from(rows.start[o])..usize::from(rows.start[o + 1]) {
        let p = usize::from(rows.entries[j]);
        to[usize::from(next[p])] |= contribution(here, p, v[p / Coder::INPUTS]);
    }
}

// The letters that the states with the sets v give to any state on one received letter.
pub fn letters_after(rows: &Rows, v: &[u16; 16], o: usize, here: bool) -> u16
    requires { RowsAsked rows.now.start rows.now.entries × EachWord v.now × (o < max_outputs) }
    ensures { (c : Coder) → RowsOf c rows.now.start rows.now.entries → Holds (LetterAfter c v.now o here) result }
{
    let mut u = EMPTY;
    // By places, as in `advance`.
    for j in usize::from(rows.start[o])..usize::from(rows.start[o + 1]) {
        let p = usize::from(rows.entries[j]);
        u |= contribution(here, p, v[p / Coder::INPUTS]);
    }
    u
}

// The sets before the first letter: that of letter 0 for a start state, the empty one for the others.
pub fn start_sets(starts: u16) -> [u16; 16]
    ensures { result ≡ start_sets starts }
{
    array::from_fn(|s| (starts >> s) % 2)
}
