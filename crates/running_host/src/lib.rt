// The coder run for a host in C: the library's own call, its result laid into one more lent buffer.
#![tactic(auto)]

ghost use Rattle.running_host.specs.Laid.{RunFromHost};

use layout::inner::{put_fields, roomy};

// Runs the coder from a start state. The file's refusals, 7, 11, 12.
#[tactic(auto, unfolding(layout::specs::Layout::fields_of))]
pub fn run(file: &[u8], start: usize, input: &[u8], output: &mut [u8], res: &mut [u8]) -> usize
    ensures { RunFromHost file.now start input.now
        output.old res.old result output.new res.new }
{
    match running::inner::run(file, start, input, output, roomy(res.len())) {
        Ok(run) => {
            put_fields(res, &[run.count, run.end]);
            0
        }
        Err(refusal) => refusal.number(),
    }
}
