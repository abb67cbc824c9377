// The costs of conflicting edges: a letter, and the cost of the pair that the edge leads to.
ghost use Rattle.std.specs.Prelude.{ℕ, ◌-◌, ◌<◌, get_or};
ghost use Rattle.first_pair.specs.Cost.{CostTable, Capped, no_cost, letter_cost};
ghost use Rattle.costs.specs.Marked.{OnLetters, OnConflict, EdgesAsked, MarkedAsked, MarkedDone};

use coder::inner::tables::Coder;
use first_pair::inner::{LETTER_COST, NO_COST};
use setting::inner::members::Members;

// The least cost of a pair (x, y), y the next state of v on a letter of the row, where one is below `cap`.
fn least_on(c: &Coder, t: &[usize; 256], x: usize, v: usize, row: u16, cap: usize) -> usize
    requires { (x < 16) × (v < 16) × ((p : ℕ) → get_or c.now.next p 0 < 16) }
    ensures { Capped (OnLetters c.now.next t.now x v row) cap result }
{
    let mut least = cap;
    for j in Members::of(row) {
        let y = usize::from(c.next[Coder::INPUTS * v + j]);
        least = least.min(t[Coder::STATES * x + y]);
    }
    least
}

// The least cost of a pair that a conflicting edge of (u, v) leads to, where one is below that of the most letters but one.
fn least_conflict(
    c: &Coder,
    letters: &[u16; 1024],
    conflicts: &[u16; 16],
    t: &[usize; 256],
    u: usize,
    v: usize,
) -> usize
    requires { EdgesAsked c.now.next c.now.output c.now.inputs × (u < 16) × (v < 16) }
    ensures { Capped (OnConflict c.now.next c.now.output letters.now conflicts.now t.now c.now.inputs u v) (no_cost - letter_cost) result }
{
    let mut least = NO_COST - LETTER_COST;
    for i in 0..c.inputs {
        let p = Coder::INPUTS * u + i;
        let row = letters[Coder::STATES * usize::from(c.output[p]) + v] & conflicts[i];
        least = least_on(c, t, usize::from(c.next[p]), v, row, least);
    }
    least
}

// The least cost, for each pair, of a conflicting letter and what follows it.
pub fn marked(
    c: &Coder,
    letters: &[u16; 1024],
    conflicts: &[u16; 16],
    t: &[usize; 256],
) -> [usize; 256]
    requires { MarkedAsked c.now letters.now }
    ensures { CostTable result × MarkedDone c.now conflicts.now t.now result }
{
    let mut table = [NO_COST; 256];
    for a in 0..Coder::STATES * c.states {
        let u = a / Coder::STATES;
        let v = a % Coder::STATES;
        table[a] = LETTER_COST + least_conflict(c, letters, conflicts, t, u, v);
    }
    table
}
