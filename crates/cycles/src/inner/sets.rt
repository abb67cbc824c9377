// Sets of pairs of states, 16 words each, along edges.
ghost use Rattle.std.specs.Prelude.{◌≡◌, ℕ, ◌<◌, ◌≤◌, get_or};
ghost use Rattle.mealy.specs.Word.{Has};
ghost use Rattle.cycles.specs.Successors.{Rows, PairWords, word_at, WithBesides, FollowsRow, FollowsSet, ExactlyPairs, Parted};

use coder::inner::tables::Coder;
use setting::inner::members::Members;

// Adds the successors of the pair a.
pub fn add_pair(words: &[u16; 4096], a: usize, set: &mut [u16; 16])
    requires { PairWords words.now × (a < 256) × Rows set.old }
    ensures { WithBesides (λ x y. Has (word_at words.now a x) y) set.old set.new }
{
    for x in 0..Coder::STATES {
        set[x] |= words[Coder::STATES * a + x];
    }
}

// Adds the successors of the pairs (u, v), v in the row.
pub fn add_row(words: &[u16; 4096], u: usize, row: u16, set: &mut [u16; 16])
    requires { PairWords words.now × (u < 16) × Rows set.old }
    ensures { WithBesides (FollowsRow words.now u row) set.old set.new }
{
    for v in Members::of(row) {
        add_pair(words, Coder::STATES * u + v, set);
    }
}

// The pairs that follow those of a set.
pub fn image(words: &[u16; 4096], states: usize, set: &[u16; 16]) -> [u16; 16]
    requires { PairWords words.now × (states ≤ 16) × Rows set.now }
    ensures { ExactlyPairs (FollowsSet words.now states set.now) result }
{
    let mut to = [0; 16];
    for u in 0..states {
        add_row(words, u, set[u], &mut to);
    }
    to
}

// Takes from the one set what the other has, and adds to the other what is left. Says whether any pair is left.
pub fn part(to: &mut [u16; 16], seen: &mut [u16; 16]) -> bool
    requires { Rows to.old × Rows seen.old }
    ensures { Parted to.old seen.old to.new seen.new result }
{
    for x in 0..Coder::STATES {
        to[x] &= !seen[x];
        seen[x] |= to[x];
    }
    to.iter().any(|row| *row != 0)
}
