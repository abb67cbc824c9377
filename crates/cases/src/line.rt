// A line, read from its front.
use crate::bytes::{MOST, after_blanks, list, number, up_to};
use values::{LoopedPair, Window};

// What is left of a line.
#[derive(Drop)]
pub(crate) struct Line<'a>(pub(crate) &'a [u8]);

impl Line<'_> {
    // Whether a word comes next. The word and the blanks behind it are read.
    pub(crate) fn has(&mut self, word: &[u8]) -> bool {
        match self.0.strip_prefix(word) {
            Some(rest) => {
                self.0 = after_blanks(rest);
                true
            }
            None => false,
        }
    }

    // Reads a word, and the blanks behind it.
    pub(crate) fn word(&mut self, word: &[u8]) -> Option<()> {
        self.has(word).then_some(())
    }

    // Reads a number, and the blanks behind it.
    pub(crate) fn number(&mut self) -> Option<usize> {
        let (value, rest) = number(self.0)?;
        self.0 = after_blanks(rest);
        Some(value)
    }

    pub(crate) fn window(&mut self) -> Option<Window> {
        Some(Window {
            before: self.number()?,
            after: self.number()?,
            settle: self.number()?,
        })
    }

    pub(crate) fn pair(&mut self) -> Option<LoopedPair> {
        Some(LoopedPair {
            s: self.number()?,
            t: self.number()?,
            back_loop: self.number()?,
            lead_in: self.number()?,
            lead_out: self.number()?,
            forward_loop: self.number()?,
        })
    }

    // Reads a list of bytes behind a word. It has only bytes below those of `=` and of letters.
    pub(crate) fn list<'b>(&mut self, word: &[u8], into: &'b mut [u8; MOST]) -> Option<&'b [u8]> {
        self.word(word)?;
        let (text, rest) = up_to(self.0, b'<');
        self.0 = rest;
        list(text, into)
    }
}
