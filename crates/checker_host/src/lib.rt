// The checker of looped pairs for a host in C: the library's own call, its result laid into a lent buffer.
#![tactic(auto)]

ghost use Rattle.values.specs.Pair.{pair_of, looped_pair};
ghost use Rattle.checker_host.specs.Laid.{CheckFromHost};

use layout::inner::{put_fields, roomy};
use values::LoopedPair;

// Whether a looped pair is valid: its starts and lengths, and two bytes for each letter. The file's refusals, 7, 9, 11, 12.
#[tactic(auto, using(crate::proofs::Hosting::check_others), unfolding(layout::specs::Layout::fields_of))]
pub fn check(
    file: &[u8],
    s: usize,
    t: usize,
    back_loop: usize,
    lead_in: usize,
    lead_out: usize,
    forward_loop: usize,
    letters: &[u8],
    res: &mut [u8],
) -> usize
    ensures { CheckFromHost file.now
        (pair_of (looped_pair s t back_loop lead_in lead_out forward_loop) letters.now)
        res.old result res.new }
{
    let pair = LoopedPair {
        s,
        t,
        back_loop,
        lead_in,
        lead_out,
        forward_loop,
    };
    match checker::inner::check(file, pair, letters, roomy(res.len())) {
        Ok(valid) => {
            put_fields(res, &[usize::from(valid)]);
            0
        }
        Err(refusal) => refusal.number(),
    }
}
