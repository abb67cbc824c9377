// The window search for a host in C: the library's own search in the default order, its result laid into one more lent buffer.
#![tactic(auto)]

ghost use Rattle.std.specs.Prelude.{◌≤◌, ◌≡◌, length};
ghost use Rattle.layout.specs.Layout.{result_bytes, with_fields};
ghost use Rattle.search_host.specs.Laid.{verdict_fields, SearchFromHost};

use layout::inner::{put_fields, roomy};
use search::Verdict;
use values::Order;

// The fields of a verdict.
fn put_verdict(res: &mut [u8], verdict: Verdict)
    requires { result_bytes ≤ length res.old }
    ensures { res.new ≡ with_fields res.old (verdict_fields verdict) }
{
    match verdict {
        Verdict::Least(w) => put_fields(res, &[0, w.before, w.after]),
        Verdict::NoDecoder(p) => put_fields(
            res,
            &[
                1,
                p.s,
                p.t,
                p.back_loop,
                p.lead_in,
                p.lead_out,
                p.forward_loop,
            ],
        ),
    }
}

// Finds the least window with a settle count that works for a coder in the default order, or the first looped pair where none does.
// The file's refusals, 14, 11.
pub fn search(file: &[u8], settle: usize, letters: &mut [u8], res: &mut [u8]) -> usize
    ensures { SearchFromHost file.now settle
        letters.old res.old result letters.new res.new }
{
    match search::inner::search(file, Order::DEFAULT, settle, letters, roomy(res.len())) {
        Ok(verdict) => {
            put_verdict(res, verdict);
            0
        }
        Err(refusal) => refusal.number(),
    }
}
