// Reads cases from standard input, makes the public call of each, and compares what it gave with what the case expects. Writes each case
// that differs, and last how many cases there were and how many differ. The file `stdin` beside `src` says how a case is written.
#![tactic(auto)]

mod asking; // asking.rt: what a line asks for: a call with its arguments, or a file to keep
mod bytes; // bytes.rt: blanks, numbers and lists of bytes
mod calls; // calls.rt: the public calls
mod line; // line.rt: a line, read from its front
mod outcome; // outcome.rt: what a call gave, and its text
mod output; // output.rt: where a text goes: to standard output, or beside what a case expects

use asking::Lists;
use bytes::MOST;
use outcome::Given;
use output::{Output, Stdout};

// How many cases there were, and how many of them differ.
#[derive(Clone, Copy)]
struct Tally {
    cases: usize,
    differ: usize,
}

// The bytes that a case reads, and the buffer that is lent to its call.
#[derive(Drop)]
struct Buffers {
    file: [u8; MOST],
    lists: Lists,
    lent: [u8; 65537],
}

// What the call of a line gives on the file with this list of bytes, and what the line expects. None where the line or the file cannot be
// read, or the call is to be lent more bytes than there are.
fn made<'a>(
    line: &'a [u8],
    list: &[u8],
    buffers: &'a mut Buffers,
) -> Option<(Given<'a>, &'a [u8])> {
    let file = bytes::list(list, &mut buffers.file)?;
    let request = asking::asked(line, &mut buffers.lists)?;
    let lent = &mut buffers.lent;
    let lent = lent.get_mut(..request.size.unwrap_or(0))?;
    let outcome = calls::make(request.call, file, lent);
    let buffer = request.size.is_some().then_some(&*lent);
    Some((Given { outcome, buffer }, request.expected))
}

// Whether a case gives what it expects; it is written with its number, and what its call gave, where it does not. Every byte that is lent
// to its call is 238.
fn holds(number: usize, line: &[u8], list: &[u8]) -> bool {
    let mut buffers = Buffers {
        file: [0; MOST],
        lists: Lists {
            first: [0; MOST],
            last: [0; MOST],
        },
        lent: [238; 65537],
    };
    let made = made(line, list, &mut buffers);
    if made.is_some_and(|(given, expected)| given.is_expected(expected)) {
        return true;
    }
    output::numbers(&mut Stdout, b"case", &[number]);
    Stdout.exact(b": ");
    Stdout.exact(line);
    Stdout.exact(b" | ");
    match made {
        Some((given, _)) => given.write(&mut Stdout),
        None => Stdout.exact(b"cannot be read"),
    }
    Stdout.exact(b"\n");
    false
}

// The cases of a text. A line goes on with those after it that begin with a space; one that is empty, or begins with # or with the byte 0,
// is passed over.
fn tried(text: &[u8]) -> Tally {
    let mut tally = Tally {
        cases: 0,
        differ: 0,
    };
    let mut file: &[u8] = b"";
    for line in text.chunk_by(|a, b| *a != b'\n' || *b == b' ') {
        let line = line.strip_suffix(b"\n").unwrap_or(line);
        if let None | Some(0 | b'#') = line.first() {
            continue;
        }
        if let Some(list) = asking::file(line) {
            file = list;
        } else {
            tally.cases = tally.cases.saturating_add(1);
            if !holds(tally.cases, line, file) {
                tally.differ = tally.differ.saturating_add(1);
            }
        }
    }
    tally
}

fn main() {
    let mut text = io::large_buffer();
    let n = io::read_full(0, &mut text);
    let tally = tried(&text[..n]);
    if n < 65536 {
        output::numbers(&mut Stdout, b"cases", &[tally.cases]);
        Stdout.exact(b",");
        output::numbers(&mut Stdout, b" differ", &[tally.differ]);
        Stdout.exact(b"\n");
    } else {
        Stdout.exact(b"the text has more than 65535 bytes\n");
    }
}
