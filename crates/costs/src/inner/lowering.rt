// Least costs in a table, pair by pair, until none falls.
ghost use Rattle.std.specs.Prelude.{ℕ, ◌<◌, ◌≤◌, get_or};
ghost use Rattle.first_pair.specs.Cost.{CostTable, Capped, no_cost};
ghost use Rattle.first_pair.specs.Successors.{PairWords};
ghost use Rattle.costs.specs.Lowering.{RowCost, NextCost, PassAsked, PassDone, LoweringAsked, LoweringDone};

use coder::inner::tables::Coder;
use first_pair::inner::NO_COST;
use setting::inner::members::Members;

// The least cost of a pair (x, y), y in the row, where one is below `cap`.
fn least_in_row(t: &[usize; 256], x: usize, row: u16, cap: usize) -> usize
    requires { x < 16 }
    ensures { Capped (RowCost t.now x row) cap result }
{
    let mut least = cap;
    for y in Members::of(row) {
        least = least.min(t[Coder::STATES * x + y]);
    }
    least
}

// The least cost of a pair that follows the pair a, or no cost.
fn least_next(words: &[u16; 4096], t: &[usize; 256], states: usize, a: usize) -> usize
    requires { PairWords words.now × (states ≤ 16) × (a < 256) }
    ensures { Capped (NextCost words.now t.now states a) no_cost result }
{
    let mut least = NO_COST;
    for x in 0..states {
        least = least_in_row(t, x, words[Coder::STATES * a + x], least);
    }
    least
}

// No cost in the table is below this one.
fn least_of(t: &[usize; 256]) -> usize
    ensures { ((k : ℕ) → k < 256 → result ≤ get_or t.now k 0) × (result ≤ no_cost) }
{
    let mut least = NO_COST;
    for cost in t {
        least = least.min(*cost);
    }
    least
}

// Lets the cost of each pair fall to one step more than the least of those that follow it, from the last pair on. No cost is below `low`. Says
// whether any fell.
fn pass(words: &[u16; 4096], states: usize, step: usize, low: usize, t: &mut [usize; 256]) -> bool
    requires { PassAsked words.now states step low t.old }
    ensures { PassDone words.now states step low t.old t.new result }
{
    let mut fell = false;
    for a in (0..Coder::STATES * states).rev() {
        let cost = t[a];
        if low + step < cost {
            let next = least_next(words, t, states, a) + step;
            if next < cost {
                t[a] = next;
                fell = true;
            }
        }
    }
    fell
}

// Passes until none falls.
pub fn lower_costs(words: &[u16; 4096], states: usize, step: usize, t: &mut [usize; 256])
    requires { LoweringAsked words.now states step t.old }
    ensures { CostTable t.new × LoweringDone words.now states step t.old t.new }
{
    let low = least_of(t);
    // A while loop: a pass says whether there is another.
    while pass(words, states, step, low, t) {}
}
