// The first looped pair.
ghost use Rattle.loops.specs.Pair.{FindAsked, FoundPair};
ghost use Rattle.loops.specs.Parts.{LettersAsked, LettersDone};

use crate::inner::parts::{write_between, write_closed};
use crate::inner::tables::{CostTables, lengths, tables};
use coder::inner::tables::Coder;
use cycles::inner::successors::successors;
use values::LoopedPair;

// Writes all letters of the pair from the buffer's front on.
fn write_letters(
    c: &Coder,
    words: &[u16; 4096],
    conflicts: &[u16; 16],
    costs: &CostTables,
    p: LoopedPair,
    letters: &mut [u8],
)
    requires { LettersAsked c.now words.now conflicts.now costs.now.tails costs.now.heads p letters.old }
    ensures { LettersDone c.now conflicts.now costs.now.tails costs.now.heads p letters.old letters.new }
{
    let unlooped = p.back_loop + p.lead_in + 1 + p.lead_out;
    let start = Coder::STATES * p.s + p.t;
    write_closed(c, words, start, p.back_loop, 0, letters);
    let end = write_between(c, conflicts, costs, p, letters);
    write_closed(c, words, end, p.forward_loop, unlooped, letters);
}

// The first looped pair of a coder whose runs start in the states of the word, word i of `conflicts` holding the letters that conflict with
// i. Its letters go to the front of the buffer.
#[inline(never)]
pub fn find(c: &Coder, starts: u16, conflicts: &[u16; 16], letters: &mut [u8]) -> LoopedPair
    requires { FindAsked c.now starts conflicts.now letters.old }
    ensures { FoundPair c.now starts conflicts.now result letters.old letters.new }
{
    let words = successors(c);
    let costs = tables(c, &words, conflicts);
    let p = lengths(c.states, starts, &costs);
    write_letters(c, &words, conflicts, &costs, p, letters);
    p
}
