// The shortest closed walk at each pair of states.
ghost use Rattle.std.specs.Prelude.{◌<◌, ◌≤◌};
ghost use Rattle.first_pair.specs.Cost.{CostTable};
ghost use Rattle.cycles.specs.Successors.{PairWords, too_long, CycleFound, LoopsFound};

use crate::inner::sets::{add_pair, image, part};
use coder::inner::tables::Coder;
use first_pair::inner::{LETTER_COST, NO_COST, TOO_LONG};
use setting::inner::has;

// The letters of the shortest closed walk at (u, v), or the limit, whose cost is that of no walk: from set to set of the pairs that one
// letter more leads to, each pair being followed once.
fn cycle(words: &[u16; 4096], states: usize, u: usize, v: usize) -> usize
    requires { PairWords words.now × (states ≤ 16) × (u < states) × (v < states) }
    ensures { (result ≤ too_long) × CycleFound words.now states u v result }
{
    let mut seen = [0; 16];
    let mut set = [0; 16];
    add_pair(words, Coder::STATES * u + v, &mut set);
    for k in 1..TOO_LONG {
        if !part(&mut set, &mut seen) {
            break;
        }
        if has(set[u], v) {
            return k;
        }
        set = image(words, states, &set);
    }
    TOO_LONG
}

// The cost of a closed walk at each pair. That of (v, u) is that of (u, v), so each is looked for once.
pub fn loops(words: &[u16; 4096], states: usize) -> [usize; 256]
    requires { PairWords words.now × (states ≤ 16) }
    ensures { CostTable result × LoopsFound words.now states result }
{
    let mut table = [NO_COST; 256];
    for u in 0..states {
        for v in 0..u + 1 {
            let cost = LETTER_COST * cycle(words, states, u, v);
            table[Coder::STATES * u + v] = cost;
            table[Coder::STATES * v + u] = cost;
        }
    }
    table
}
