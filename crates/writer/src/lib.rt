// The writer of coder files: the public call. docs/public-calls.md describes it.
#![tactic(auto)]

ghost use Rattle.writer.specs.Write.{WritePromise};

use coder::refusal::Refusal;

pub mod inner; // inner.rt: the writer with other lent buffers besides its own; no public calls

// Writes the file of three counts and their entry bytes. Refusals 4 to 6, 15, 11.
pub fn write(
    states: usize,
    inputs: usize,
    outputs: usize,
    entries: &[u8],
    file: &mut [u8],
) -> Result<usize, Refusal>
    ensures { WritePromise states inputs outputs entries.now file.old result file.new }
{
    inner::write(states, inputs, outputs, entries, file, true)
}
