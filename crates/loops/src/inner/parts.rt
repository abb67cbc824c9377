// The letters of the first looped pair, part by part.
ghost use Rattle.loops.specs.Parts.{ClosedAsked, ClosedWritten, MarkAsked, MarkWritten, BetweenAsked, BetweenDone};

use crate::inner::tables::CostTables;
use crate::inner::{IN_COST, OUT_COST};
use coder::inner::tables::Coder;
use costs::inner::lowering::lower_costs;
use first_pair::inner::{LETTER_COST, NO_COST};
use letters::inner::{WalkCosts, after, lowest, write, write_at};
use values::LoopedPair;

// Writes the lowest letters of a shortest closed walk at the pair a, from `place` on.
pub fn write_closed(
    c: &Coder,
    words: &[u16; 4096],
    a: usize,
    n: usize,
    place: usize,
    letters: &mut [u8],
)
    requires { ClosedAsked c.now words.now a n place letters.old }
    ensures { ClosedWritten c.now a n place letters.old letters.new }
{
    let mut to = [NO_COST; 256];
    to[a] = 0;
    lower_costs(words, c.states, 1, &mut to);
    let costs = WalkCosts {
        table: &to,
        step: 1,
        base: 0,
    };
    write(c, &costs, a, n, place, letters);
}

// Writes the lowest conflicting letters on an edge from the pair a to a pair that costs `want`, at `place`. Gives that pair.
fn write_mark(
    c: &Coder,
    conflicts: &[u16; 16],
    tails: &[usize; 256],
    a: usize,
    want: usize,
    place: usize,
    letters: &mut [u8],
) -> usize
    requires { MarkAsked c.now conflicts.now tails.now a want place letters.old }
    ensures { MarkWritten c.now conflicts.now tails.now a want place letters.old letters.new result }
{
    let x = lowest(c, conflicts, tails, a, want);
    write_at(letters, place, x);
    after(&c.next, a, x)
}

// Writes lead-in, differing letter and lead-out. Gives the pair where the lead-out ends.
pub fn write_between(
    c: &Coder,
    conflicts: &[u16; 16],
    costs: &CostTables,
    p: LoopedPair,
    letters: &mut [u8],
) -> usize
    requires { BetweenAsked c.now conflicts.now costs.now.tails costs.now.heads p letters.old }
    ensures { BetweenDone c.now conflicts.now costs.now.tails costs.now.heads p letters.old letters.new result }
{
    let mark = p.back_loop + p.lead_in;
    let from = Coder::STATES * p.s + p.t;
    let loop_cost = LETTER_COST * p.forward_loop;
    let rest = OUT_COST * p.lead_out + loop_cost;
    let heads = WalkCosts {
        table: &costs.heads,
        step: IN_COST,
        base: LETTER_COST + rest,
    };
    let tails = WalkCosts {
        table: &costs.tails,
        step: OUT_COST,
        base: loop_cost,
    };
    let u = write(c, &heads, from, p.lead_in, p.back_loop, letters);
    let next = write_mark(c, conflicts, &costs.tails, u, rest, mark, letters);
    write(c, &tails, next, p.lead_out, mark + 1, letters)
}
