// The writer of coder files for a host in C: the library's own call, its result laid into one more lent buffer.
#![tactic(auto)]

ghost use Rattle.writer_host.specs.Laid.{WriteFromHost};

use layout::inner::{put_count, roomy};

// Writes the file of three counts and their entry bytes. Refusals 4 to 6, 15, 11.
pub fn write(
    states: usize,
    inputs: usize,
    outputs: usize,
    entries: &[u8],
    file: &mut [u8],
    res: &mut [u8],
) -> usize
    ensures { WriteFromHost states inputs outputs entries.now
        file.old res.old result file.new res.new }
{
    let own = writer::inner::write(states, inputs, outputs, entries, file, roomy(res.len()));
    put_count(own, res)
}
