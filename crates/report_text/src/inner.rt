// No public calls: the report's lines, each written into a lent buffer.
ghost use Rattle.std.specs.Prelude.{◌≡◌, ℕ, ◌+◌, ◌<◌, ◌≤◌, length, get_or};
ghost use Rattle.coder.specs.File.{file_refusal};
ghost use Rattle.search.specs.Search.{wanted};
ghost use Rattle.pair_text.specs.Lines.{pair_bytes};
ghost use Rattle.placing.specs.Placed.{Placed};
ghost use Rattle.report_text.specs.Report.{refused_text, coder_line, window_line};
ghost use Rattle.report_text.specs.Text.{text_bytes, VerdictWritten, ReportWritten};

use pair_text::inner::no_decoder;
use placing::inner::put;
use search::Verdict;
use text::inner::word_number;

// How many bytes hold the text of any report.
pub const BYTES: usize = 3200;

// `BYTES` bytes, all 0.
pub fn zeros() -> [u8; BYTES]
    ensures { (text_bytes ≡ length result) × ((k : ℕ) → get_or result k 0 ≡ 0) }
{
    [0; BYTES]
}

// The text on a refused file.
#[tactic(auto, using(text::proofs::Decimals::three_digits))]
fn refused(out: &mut [u8], k: usize) -> usize
    requires { (k < 1000) × (text_bytes ≤ length out.old) }
    ensures { Placed out.old 0 (refused_text k) out.new result }
{
    let a = word_number(out, 0, b"refused ", k);
    put(out, a, b"\n")
}

// The first line on an accepted file.
#[tactic(auto, using(text::proofs::Decimals::three_digits))]
fn coder_line(out: &mut [u8], states: usize, inputs: usize, outputs: usize) -> usize
    requires { (states < 1000) × (inputs < 1000) × (outputs < 1000) × (text_bytes ≤ length out.old) }
    ensures placed { Placed out.old 0 (coder_line states inputs outputs) out.new result }
    ensures upper_bound { result ≤ 18 }
{
    let a = word_number(out, 0, b"coder ", states);
    let b = word_number(out, a, b" ", inputs);
    let c = word_number(out, b, b" ", outputs);
    put(out, c, b"\n")
}

// The line of a window.
#[tactic(auto, using(text::proofs::Decimals::three_digits))]
fn window_line(out: &mut [u8], at: usize, before: usize, after: usize) -> usize
    requires { (before < 1000) × (after < 1000) × (at + 15 ≤ length out.old) }
    ensures { Placed out.old at (window_line before after) out.new result }
{
    let a = word_number(out, at, b"window ", before);
    let b = word_number(out, a, b" ", after);
    put(out, b, b"\n")
}

// The bytes that the search wants.
fn buffer() -> [u8; search::inner::WANTED]
    ensures { wanted ≡ length result }
{
    [0; search::inner::WANTED]
}

// The lines behind the first on an accepted file: of the window, or of no decoder and the looped pair.
fn verdict_lines(file: &[u8], out: &mut [u8], at: usize) -> usize
    requires { (file_refusal file.now ≡ 0) × (at + pair_bytes ≤ length out.old) }
    ensures { VerdictWritten file.now out.old at out.new result }
{
    let mut letters = buffer();
    match search::search(file, 0, &mut letters) {
        Ok(Verdict::Least(w)) => window_line(out, at, w.before, w.after),
        Ok(Verdict::NoDecoder(p)) => no_decoder(out, at, p, &letters),
        Err(_) => at,
    }
}

// The report, from the buffer's front on.
pub fn write(file: &[u8], out: &mut [u8]) -> usize
    requires { text_bytes ≤ length out.old }
    ensures { ReportWritten file.now out.old out.new result }
{
    match reader::counts(file) {
        Ok(header) => {
            let at = coder_line(out, header.states, header.inputs, header.outputs);
            verdict_lines(file, out, at)
        }
        Err(refusal) => refused(out, refusal.number()),
    }
}
