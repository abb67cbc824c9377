// The public calls: each is made, and what it gave is put in one type.
use crate::asking::Call;
use crate::outcome::Outcome;
use coder::refusal::Refusal;
use fitting::Answer;
use search::Verdict;
use values::{LoopedPair, Window};
use window_kinds::KindsAnswer;

fn counts<'a>(file: &[u8]) -> Outcome<'a> {
    match reader::counts(file) {
        Ok(header) => Outcome::Coder {
            states: header.states,
            inputs: header.inputs,
            outputs: header.outputs,
        },
        Err(refusal) => Outcome::Refused(refusal),
    }
}

fn run<'a>(file: &[u8], start: usize, input: &[u8], lent: &mut [u8]) -> Outcome<'a> {
    match running::run(file, start, input, lent) {
        Ok(run) => Outcome::Ran {
            count: run.count,
            end: run.end,
        },
        Err(refusal) => Outcome::Refused(refusal),
    }
}

fn window<'a>(file: &[u8], w: Window, received: &[u8]) -> Outcome<'a> {
    match decoder::window(file, w, received) {
        Ok(Answer::Letter(x)) => Outcome::Letter(x),
        Ok(Answer::None(far)) => Outcome::NoLetterFrom(far),
        Ok(Answer::Several) => Outcome::Several,
        Err(refusal) => Outcome::Refused(refusal),
    }
}

fn written<'a>(r: Result<usize, Refusal>) -> Outcome<'a> {
    match r {
        Ok(count) => Outcome::Written { count },
        Err(refusal) => Outcome::Refused(refusal),
    }
}

fn searched<'a>(r: Result<Verdict, Refusal>) -> Outcome<'a> {
    match r {
        Ok(Verdict::Least(w)) => Outcome::Least {
            before: w.before,
            after: w.after,
            settle: w.settle,
        },
        Ok(Verdict::NoDecoder(p)) => Outcome::NoDecoder(p),
        Err(refusal) => Outcome::Refused(refusal),
    }
}

fn check<'a>(file: &[u8], p: LoopedPair, letters: &[u8]) -> Outcome<'a> {
    match checker::check(file, p, letters) {
        Ok(valid) => Outcome::Checked(valid),
        Err(refusal) => Outcome::Refused(refusal),
    }
}

fn kinds<'a>(file: &[u8], list: &[u8]) -> Outcome<'a> {
    match search_kinds::search_kinds(file, list) {
        Ok(None) => Outcome::Cannot,
        Ok(Some(told)) => Outcome::Told {
            before: told.window.before,
            after: told.window.after,
            carried: usize::from(told.carried),
        },
        Err(refusal) => Outcome::Refused(refusal),
    }
}

fn decode_kinds<'a>(
    file: &[u8],
    list: &[u8],
    before: usize,
    after: usize,
    received: &[u8],
) -> Outcome<'a> {
    match window_kinds::window_kinds(file, list, before, after, received) {
        Ok(KindsAnswer::Letter(x)) => Outcome::Letter(x),
        Ok(KindsAnswer::Kind(k)) => Outcome::Kind(k),
        Ok(KindsAnswer::None) => Outcome::NoLetter,
        Ok(KindsAnswer::Several) => Outcome::Several,
        Err(refusal) => Outcome::Refused(refusal),
    }
}

// Makes a call on a file, with the buffer that is lent to it.
pub(crate) fn make<'a>(call: Call<'_>, file: &'a [u8], lent: &mut [u8]) -> Outcome<'a> {
    match call {
        Call::Run { start, input } => run(file, start, input, lent),
        Call::Decode { window, received } => written(decoder::string(file, window, received, lent)),
        Call::Table(window) => written(decoder::table(file, window, lent)),
        Call::Write {
            states,
            inputs,
            outputs,
            entries,
        } => written(writer::write(states, inputs, outputs, entries, lent)),
        Call::Join { second } => written(joining::join(file, second, lent)),
        Call::Search { settle } => searched(search::search(file, settle, lent)),
        Call::SearchInOrder { order, settle } => searched(search::search_in_order(
            file, order, settle, lent,
        )),
        Call::Counts => counts(file),
        Call::Entries => Outcome::Bytes(reader::entries(file)),
        Call::Letter {
            window: w,
            received,
        } => window(file, w, received),
        Call::Check { pair, letters } => check(file, pair, letters),
        Call::Kinds { kinds: list } => kinds(file, list),
        Call::DecodeKinds {
            before,
            after,
            kinds: list,
            received,
        } => decode_kinds(file, list, before, after, received),
        Call::NoCall => Outcome::Bytes(b""),
    }
}
