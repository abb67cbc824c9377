// The decoder for a host in C: the library's own calls, each result laid into one more lent buffer.
#![tactic(auto)]

ghost use Rattle.std.specs.Prelude.{◌≤◌, ◌≡◌, length};
ghost use Rattle.layout.specs.Layout.{result_bytes, with_fields};
ghost use Rattle.values.specs.Window.{window as window_of};
ghost use Rattle.decoder_host.specs.Laid.{answer_fields, WindowFromHost, StringFromHost, TableFromHost};

use decoder::inner::calls;
use fitting::Answer;
use fitting::inner::answer::{NONE, SEVERAL};
use layout::inner::{put_count, put_fields, roomy};
use values::Window;

// The fields of an answer.
fn put_answer(res: &mut [u8], answer: Answer)
    requires { result_bytes ≤ length res.old }
    ensures { res.new ≡ with_fields res.old (answer_fields answer) }
{
    match answer {
        Answer::Letter(x) => put_fields(res, &[usize::from(x)]),
        Answer::None(far) => put_fields(res, &[usize::from(NONE), far]),
        Answer::Several => put_fields(res, &[usize::from(SEVERAL)]),
    }
}

// Decodes one window of received letters. The file's refusals, 8, 14, 9, 11, 13.
#[tactic(auto, using(crate::proofs::Hosting::window_enough), unfolding(layout::specs::Layout::fields_of))]
pub fn window(
    file: &[u8],
    before: usize,
    after: usize,
    settle: usize,
    received: &[u8],
    res: &mut [u8],
) -> usize
    ensures { WindowFromHost file.now (window_of before after settle) received.now
        res.old result res.new }
{
    let w = Window {
        before,
        after,
        settle,
    };
    match calls::window(file, w, received, roomy(res.len())) {
        Ok(answer) => {
            put_answer(res, answer);
            0
        }
        Err(refusal) => refusal.number(),
    }
}

// Decodes each place of a string that has a full window. The file's refusals, 8, 14, 11, 13.
pub fn string(
    file: &[u8],
    before: usize,
    after: usize,
    settle: usize,
    received: &[u8],
    output: &mut [u8],
    res: &mut [u8],
) -> usize
    ensures { StringFromHost file.now (window_of before after settle) received.now
        output.old res.old result output.new res.new }
{
    let w = Window {
        before,
        after,
        settle,
    };
    let own = calls::string(file, w, received, output, roomy(res.len()));
    put_count(own, res)
}

// Fills the decoder table: a byte for each window, by its index. The file's refusals, 8, 14, 10, 11.
pub fn table(
    file: &[u8],
    before: usize,
    after: usize,
    settle: usize,
    table: &mut [u8],
    res: &mut [u8],
) -> usize
    ensures { TableFromHost file.now (window_of before after settle)
        table.old res.old result table.new res.new }
{
    let w = Window {
        before,
        after,
        settle,
    };
    let own = calls::table(file, w, table, roomy(res.len()));
    put_count(own, res)
}
