// The window search. docs/public-calls.md describes the calls.
#![tactic(auto)]

ghost use Rattle.values.specs.Order.{default_order};
ghost use Rattle.search.specs.Search.{SearchPromise};

use coder::refusal::Refusal;
use values::Order;

pub mod inner; // inner.rt: the search with other lent buffers besides its own; no public calls

// The least window that works, in the order of the search, or the first looped pair, which excludes every window; its letters lie in the
// lent buffer.
#[derive(Clone, Copy, PartialEq, Eq)]
pub enum Verdict {
    Least(values::Window),
    NoDecoder(values::LoopedPair),
}

// Finds the least window with a settle count that works for a coder in the default order, or the first looped pair where none does.
// The file's refusals, 14, 11.
pub fn search(file: &[u8], settle: usize, letters: &mut [u8]) -> Result<Verdict, Refusal>
    ensures { SearchPromise default_order file.now settle letters.old result letters.new }
{
    search_in_order(file, Order::DEFAULT, settle, letters)
}

// The same in an order that the caller names.
pub fn search_in_order(
    file: &[u8],
    order: Order,
    settle: usize,
    letters: &mut [u8],
) -> Result<Verdict, Refusal>
    ensures { SearchPromise order file.now settle letters.old result letters.new }
{
    inner::search(file, order, settle, letters, true)
}
