// The calls for kinds of letter for a host in C: the library's own calls, each result laid into one more lent buffer.
#![tactic(auto)]

ghost use Rattle.std.specs.Prelude.{◌≤◌, ◌≡◌, length};
ghost use Rattle.layout.specs.Layout.{result_bytes, with_fields};
ghost use Rattle.kinds_host.specs.Laid.{kinds_fields, answer_fields};
ghost use Rattle.kinds_host.specs.Laid.{SearchKindsFromHost, WindowKindsFromHost};

use layout::inner::{put_fields, roomy};
use search_kinds::Told;
use window_kinds::KindsAnswer;

// The fields of a report.
fn put_report(res: &mut [u8], verdict: Option<Told>)
    requires { result_bytes ≤ length res.old }
    ensures { res.new ≡ with_fields res.old (kinds_fields verdict) }
{
    match verdict {
        None => put_fields(res, &[1]),
        Some(Told { carried, window }) => put_fields(
            res,
            &[0, window.before, window.after, usize::from(carried)],
        ),
    }
}

// The fields of an answer.
fn put_answer(res: &mut [u8], answer: KindsAnswer)
    requires { result_bytes ≤ length res.old }
    ensures { res.new ≡ with_fields res.old (answer_fields answer) }
{
    match answer {
        KindsAnswer::Letter(x) => put_fields(res, &[0, usize::from(x)]),
        KindsAnswer::Kind(k) => put_fields(res, &[1, usize::from(k)]),
        KindsAnswer::None => put_fields(res, &[2]),
        KindsAnswer::Several => put_fields(res, &[3]),
    }
}

// Finds the carried kinds and the first window that tells them, or that kinds can be told by none. The file's refusals, 16, 11.
pub fn search_kinds(file: &[u8], kinds: &[u8], res: &mut [u8]) -> usize
    ensures { SearchKindsFromHost file.now kinds.now res.old result res.new }
{
    match search_kinds::inner::search_kinds(file, kinds, roomy(res.len())) {
        Ok(verdict) => {
            put_report(res, verdict);
            0
        }
        Err(refusal) => refusal.number(),
    }
}

// Decodes one window of received letters to a letter or a kind. The file's refusals, 16, 8, 9, 11, 13.
pub fn window_kinds(
    file: &[u8],
    kinds: &[u8],
    before: usize,
    after: usize,
    received: &[u8],
    res: &mut [u8],
) -> usize
    ensures { WindowKindsFromHost file.now kinds.now before after received.now
        res.old result res.new }
{
    let own = window_kinds::inner::window_kinds(
        file,
        kinds,
        before,
        after,
        received,
        roomy(res.len()),
    );
    match own {
        Ok(answer) => {
            put_answer(res, answer);
            0
        }
        Err(refusal) => refusal.number(),
    }
}
