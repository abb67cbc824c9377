// The text of the report on a coder file. docs/public-calls.md describes the call.
#![tactic(auto)]

ghost use Rattle.report_text.specs.Report.{ReportPromise};
ghost use Rattle.report_text.specs.Text.{text_of, Padded};

pub mod inner; // inner.rt: the report's lines; no public calls

// The first `len` bytes are the text, the others 0.
#[derive(Clone, Copy)]
pub struct Text {
    pub bytes: [u8; inner::BYTES],
    pub len: usize,
}

// What the program `report` prints for a file: the file's refusal, or the counts and the window, or the looped pair.
pub fn report(file: &[u8]) -> Text
    ensures report_promise { ReportPromise file.now (text_of result) }
    ensures padded { Padded result }
{
    let mut bytes = inner::zeros();
    let len = inner::write(file, &mut bytes);
    Text { bytes, len }
}
