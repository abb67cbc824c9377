// The tables of costs that the first looped pair is found by, and its starts and lengths.
ghost use Rattle.coder.specs.Table.{machine_of_coder, Sound};
ghost use Rattle.first_pair.specs.Successors.{SuccessorsOf};
ghost use Rattle.loops.specs.Parts.{CostTablesOf, LengthsAsked, LengthsDone};

use crate::inner::{IN_COST, OUT_COST};
use chains::inner::{place_letters, place_states};
use coder::inner::tables::Coder;
use costs::inner::lowering::lower_costs;
use costs::inner::marked::marked;
use costs::inner::starts::first_start;
use first_pair::inner::{LETTER_COST, TOO_LONG};
use fitting::inner::tables::by_output;
use values::LoopedPair;

// The least costs, for each pair of states, of a closed walk, of lead-out and forward loop, and of all that follows a back loop.
#[derive(Clone, Copy)]
pub struct CostTables {
    pub loops: [usize; 256],
    pub tails: [usize; 256],
    pub heads: [usize; 256],
}

#[inline(never)]
pub fn tables(c: &Coder, words: &[u16; 4096], conflicts: &[u16; 16]) -> CostTables
    requires { Sound c.now × SuccessorsOf (machine_of_coder c.now) words.now }
    ensures { CostTablesOf c.now conflicts.now result.loops result.tails result.heads }
{
    let loops = cycles::inner::closed::loops(words, c.states);
    let mut tails = loops;
    lower_costs(words, c.states, OUT_COST, &mut tails);
    let own = place_states();
    let letters = place_letters();
    let rows = by_output(&own, &letters, &c.output, c.states, c.inputs);
    let mut heads = marked(c, &rows, conflicts, &tails);
    lower_costs(words, c.states, IN_COST, &mut heads);
    CostTables {
        loops,
        tails,
        heads,
    }
}

// Starts and lengths of the first pair.
pub fn lengths(states: usize, starts: u16, costs: &CostTables) -> LoopedPair
    requires { LengthsAsked states starts costs.now.loops costs.now.heads }
    ensures { LengthsDone states starts costs.now.loops costs.now.heads result }
{
    let a = first_start(states, starts, &costs.loops, &costs.heads);
    let head = costs.heads[a];
    let lead_in = head % LETTER_COST / TOO_LONG;
    let lead_out = head % TOO_LONG;
    LoopedPair {
        s: a / Coder::STATES,
        t: a % Coder::STATES,
        back_loop: costs.loops[a] / LETTER_COST,
        lead_in,
        lead_out,
        forward_loop: head / LETTER_COST - 1 - lead_in - lead_out,
    }
}
