// The coder run: the public call. docs/public-calls.md describes it.
#![tactic(auto)]

ghost use Rattle.running.specs.Run.{RunPromise};

use coder::refusal::Refusal;

pub mod inner; // inner.rt: the run with other lent buffers besides its own; no public calls

// What a run gives: how many letters it wrote and the state in which it ended.
#[derive(Clone, Copy, PartialEq, Eq)]
pub struct RunEnd {
    pub count: usize,
    pub end: usize,
}

// Runs the coder from a start state: writes an output letter for each input letter. The file's refusals, 7, 11, 12.
pub fn run(file: &[u8], start: usize, input: &[u8], output: &mut [u8]) -> Result<RunEnd, Refusal>
    ensures { RunPromise file.now start input.now output.old result output.new }
{
    inner::run(file, start, input, output, true)
}
