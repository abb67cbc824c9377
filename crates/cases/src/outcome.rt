// What a call gave, and its text.
use crate::output::{Expected, Output, list, numbers};
use coder::refusal::Refusal;
use values::LoopedPair;

#[derive(Clone, Copy)]
pub(crate) enum Outcome<'a> {
    Refused(Refusal),
    Coder {
        states: usize,
        inputs: usize,
        outputs: usize,
    },
    Bytes(&'a [u8]),
    Ran {
        count: usize,
        end: usize,
    },
    Written {
        count: usize,
    },
    Letter(u8),
    Kind(u8),
    NoLetter,
    NoLetterFrom(usize),
    Several,
    Least {
        before: usize,
        after: usize,
        settle: usize,
    },
    NoDecoder(LoopedPair),
    Checked(bool),
    Told {
        before: usize,
        after: usize,
        carried: usize,
    },
    Cannot,
}

impl Outcome<'_> {
    fn write(&self, out: &mut impl Output) {
        match *self {
            Outcome::Refused(refusal) => numbers(out, b"refused", &[refusal.number()]),
            Outcome::Coder {
                states,
                inputs,
                outputs,
            } => numbers(out, b"coder", &[states, inputs, outputs]),
            Outcome::Bytes(bytes) => {
                out.exact(b"bytes");
                list(out, bytes);
            }
            Outcome::Ran { count, end } => {
                numbers(out, b"count", &[count]);
                out.space();
                numbers(out, b"end", &[end]);
            }
            Outcome::Written { count } => numbers(out, b"count", &[count]),
            Outcome::Letter(x) => numbers(out, b"letter", &[usize::from(x)]),
            Outcome::Kind(k) => numbers(out, b"kind", &[usize::from(k)]),
            Outcome::NoLetter => out.exact(b"none"),
            Outcome::NoLetterFrom(far) => numbers(out, b"none", &[far]),
            Outcome::Several => out.exact(b"several"),
            Outcome::Least {
                before,
                after,
                settle,
            } => numbers(out, b"window", &[before, after, settle]),
            Outcome::NoDecoder(p) => {
                out.exact(b"no");
                out.space();
                numbers(
                    out,
                    b"decoder",
                    &[p.s, p.t, p.back_loop, p.lead_in, p.lead_out, p.forward_loop],
                );
            }
            Outcome::Checked(valid) => out.exact(if valid { b"yes" } else { b"no" }),
            Outcome::Told {
                before,
                after,
                carried,
            } => numbers(out, b"told", &[before, after, carried]),
            Outcome::Cannot => out.exact(b"cannot"),
        }
    }
}

// What a call gave, and the buffer that was lent to it, if it is lent one.
#[derive(Clone, Copy)]
pub(crate) struct Given<'a> {
    pub(crate) outcome: Outcome<'a>,
    pub(crate) buffer: Option<&'a [u8]>,
}

impl Given<'_> {
    pub(crate) fn write(&self, out: &mut impl Output) {
        self.outcome.write(out);
        if let Some(buffer) = self.buffer {
            out.exact(b",");
            out.space();
            out.exact(b"buffer");
            list(out, buffer);
        }
    }

    // Whether its text is the one that a case expects.
    pub(crate) fn is_expected(&self, expected: &[u8]) -> bool {
        let mut expected = Expected(Some(expected));
        self.write(&mut expected);
        expected.0.is_some_and(|rest| rest.is_empty())
    }
}
