// What a line asks for: a call with its arguments, or a file to keep.
use crate::bytes::MOST;
use crate::line::Line;
use values::{LoopedPair, Order, Window};

// A call with its arguments, but for the file and a lent buffer. `NoCall` is a line that goes on after the list of a file; it gives no
// bytes.
#[derive(Clone, Copy)]
pub(crate) enum Call<'a> {
    Run {
        start: usize,
        input: &'a [u8],
    },
    Decode {
        window: Window,
        received: &'a [u8],
    },
    Table(Window),
    Write {
        states: usize,
        inputs: usize,
        outputs: usize,
        entries: &'a [u8],
    },
    Join {
        second: &'a [u8],
    },
    Search {
        settle: usize,
    },
    SearchInOrder {
        order: Order,
        settle: usize,
    },
    Counts,
    Entries,
    Letter {
        window: Window,
        received: &'a [u8],
    },
    Check {
        pair: LoopedPair,
        letters: &'a [u8],
    },
    Kinds {
        kinds: &'a [u8],
    },
    DecodeKinds {
        before: usize,
        after: usize,
        kinds: &'a [u8],
        received: &'a [u8],
    },
    NoCall,
}

impl Call<'_> {
    fn is_lent_a_buffer(&self) -> bool {
        matches!(
            self,
            Call::Run { .. }
                | Call::Decode { .. }
                | Call::Table(_)
                | Call::Write { .. }
                | Call::Join { .. }
                | Call::Search { .. }
                | Call::SearchInOrder { .. }
        )
    }
}

// A call, the size of the buffer that is lent to it, if it is lent one, and what its line expects.
#[derive(Clone, Copy)]
pub(crate) struct Request<'a> {
    pub(crate) call: Call<'a>,
    pub(crate) size: Option<usize>,
    pub(crate) expected: &'a [u8],
}

// The bytes of the lists of a call.
#[derive(Drop)]
pub(crate) struct Lists {
    pub(crate) first: [u8; MOST],
    pub(crate) last: [u8; MOST],
}

// The call that a line names.
fn named<'a>(line: &mut Line<'_>, lists: &'a mut Lists) -> Option<Call<'a>> {
    if line.has(b"run") {
        Some(Call::Run {
            start: line.number()?,
            input: line.list(b"on", &mut lists.last)?,
        })
    } else if line.has(b"string") {
        Some(Call::Decode {
            window: line.window()?,
            received: line.list(b"on", &mut lists.last)?,
        })
    } else if line.has(b"table") {
        Some(Call::Table(line.window()?))
    } else if line.has(b"write") {
        Some(Call::Write {
            states: line.number()?,
            inputs: line.number()?,
            outputs: line.number()?,
            entries: line.list(b"on", &mut lists.last)?,
        })
    } else if line.has(b"join") {
        Some(Call::Join {
            second: line.list(b"on", &mut lists.last)?,
        })
    } else if line.has(b"search") {
        Some(Call::Search {
            settle: line.number()?,
        })
    } else if line.has(b"least_lookahead") {
        Some(Call::SearchInOrder {
            order: Order::LeastLookahead,
            settle: line.number()?,
        })
    } else if line.has(b"fewest_letters") {
        Some(Call::SearchInOrder {
            order: Order::FewestLetters,
            settle: line.number()?,
        })
    } else if line.has(b"counts") {
        Some(Call::Counts)
    } else if line.has(b"entries") {
        Some(Call::Entries)
    } else if line.has(b"window") {
        Some(Call::Letter {
            window: line.window()?,
            received: line.list(b"on", &mut lists.last)?,
        })
    } else if line.has(b"check") {
        Some(Call::Check {
            pair: line.pair()?,
            letters: line.list(b"on", &mut lists.last)?,
        })
    } else if line.has(b"kinds") {
        Some(Call::Kinds {
            kinds: line.list(b"on", &mut lists.last)?,
        })
    } else if line.has(b"decode_kinds") {
        Some(Call::DecodeKinds {
            before: line.number()?,
            after: line.number()?,
            kinds: line.list(b"by", &mut lists.first)?,
            received: line.list(b"on", &mut lists.last)?,
        })
    } else {
        line.list(b"file", &mut lists.last)?;
        Some(Call::NoCall)
    }
}

// What a line asks for; None where it cannot be read.
pub(crate) fn asked<'a>(line: &'a [u8], lists: &'a mut Lists) -> Option<Request<'a>> {
    let mut line = Line(line);
    let call = named(&mut line, lists)?;
    let size = if call.is_lent_a_buffer() {
        line.word(b"into")?;
        Some(line.number()?)
    } else {
        None
    };
    if !matches!(call, Call::NoCall) {
        line.word(b"=")?;
    }
    Some(Request {
        call,
        size,
        expected: line.0,
    })
}

// The list of a line that gives a file, from its sixth byte on. Where it cannot be read, no case on it can.
pub(crate) fn file(line: &[u8]) -> Option<&[u8]> {
    let list = line.strip_prefix(b"file")?;
    list.iter()
        .all(|b| *b <= b'<')
        .then_some(list.get(1..).unwrap_or(b""))
}
