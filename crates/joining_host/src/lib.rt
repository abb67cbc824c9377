// Two coders in a row for a host in C: the library's own call, its result laid into one more lent buffer.
#![tactic(auto)]

ghost use Rattle.joining_host.specs.Laid.{JoinFromHost};

use layout::inner::{put_count, roomy};

// Writes the file of the joined coder. Refusals 1 to 6 and 15 of the first file, then of the second, 17, 11.
pub fn join(first: &[u8], second: &[u8], file: &mut [u8], res: &mut [u8]) -> usize
    ensures { JoinFromHost first.now second.now
        file.old res.old result file.new res.new }
{
    let own = joining::inner::join(first, second, file, roomy(res.len()));
    put_count(own, res)
}
