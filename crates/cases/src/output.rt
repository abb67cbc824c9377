// Where a text goes: to standard output, or beside what a case expects.
use crate::bytes::after_blanks;

pub(crate) trait Output {
    // These bytes.
    fn exact(&mut self, bytes: &[u8]);

    // A space; in a case any blanks may stand for it, one at least.
    fn space(&mut self);
}

#[derive(Drop)]
pub(crate) struct Stdout;

impl Output for Stdout {
    fn exact(&mut self, bytes: &[u8]) {
        io::write_all(1, bytes);
    }

    fn space(&mut self) {
        io::write_all(1, b" ");
    }
}

// What a case expects behind the text so far; None where it expects another text.
#[derive(Clone, Copy)]
pub(crate) struct Expected<'a>(pub(crate) Option<&'a [u8]>);

impl Output for Expected<'_> {
    fn exact(&mut self, bytes: &[u8]) {
        self.0 = self.0.and_then(|rest| rest.strip_prefix(bytes));
    }

    fn space(&mut self) {
        self.0 = self.0.and_then(|rest| {
            let behind = after_blanks(rest);
            (behind.len() < rest.len()).then_some(behind)
        });
    }
}

// A number in decimal.
pub(crate) fn number(out: &mut impl Output, n: usize) {
    let mut digits = [0u8; 20];
    let k = io::decimal(n as u64, &mut digits);
    out.exact(&digits[..k]);
}

// A word, and each of these numbers behind a space.
pub(crate) fn numbers(out: &mut impl Output, word: &[u8], numbers: &[usize]) {
    out.exact(word);
    for n in numbers {
        out.space();
        number(out, *n);
    }
}

// A list of bytes with a space before each run of equal ones, which is `v` or `v*n`; `-` for none.
pub(crate) fn list(out: &mut impl Output, bytes: &[u8]) {
    if bytes.is_empty() {
        out.exact(b" -");
    }
    for run in bytes.chunk_by(|a, b| *a == *b) {
        if let Some(byte) = run.first() {
            out.space();
            number(out, usize::from(*byte));
            if run.len() > 1 {
                out.exact(b"*");
                number(out, run.len());
            }
        }
    }
}
