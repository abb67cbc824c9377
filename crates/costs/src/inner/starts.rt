// The pair of start states with the fewest letters in all, of these the first.
ghost use Rattle.std.specs.Prelude.{ℕ, ◌<◌, ◌≤◌, get_or};
ghost use Rattle.first_pair.specs.Cost.{too_long, no_cost};
ghost use Rattle.costs.specs.Starts.{total_of, StartPair, FirstStart};

use coder::inner::tables::Coder;
use first_pair::inner::{LETTER_COST, TOO_LONG};
use setting::inner::both_start;

// The first pair of start states with the fewest letters. A number, not an Option: 0 where none has fewer than are looked for, which no
// caller meets.
pub fn first_start(states: usize, starts: u16, loops: &[usize; 256], heads: &[usize; 256]) -> usize
    requires { (states ≤ 16) × ((k : ℕ) → get_or loops.now k 0 ≤ no_cost) × ((k : ℕ) → get_or heads.now k 0 ≤ no_cost) }
    ensures { (b : ℕ) → StartPair states starts b → total_of loops.now heads.now b < too_long →
        FirstStart states starts loops.now heads.now result }
{
    let mut fewest = TOO_LONG;
    let mut first = 0;
    for a in 0..Coder::STATES * states {
        if both_start(states, starts, a / Coder::STATES, a % Coder::STATES) {
            let total = (loops[a] + heads[a]) / LETTER_COST;
            if total < fewest {
                fewest = total;
                first = a;
            }
        }
    }
    first
}
