// Two coders in a row: the public call. docs/public-calls.md describes it.
#![tactic(auto)]

ghost use Rattle.joining.specs.Join.{JoinPromise};

use coder::refusal::Refusal;

pub mod inner; // inner.rt: the call with other lent buffers besides its own; no public calls

// Writes the file of the joined coder: the output letters of the first are the input letters of the second. Refusals 1 to 6 and 15 of the
// first file, then of the second, 17, 11.
pub fn join(first: &[u8], second: &[u8], file: &mut [u8]) -> Result<usize, Refusal>
    ensures { JoinPromise first.now second.now file.old result file.new }
{
    inner::join(first, second, file, true)
}
