// The calls for a host in C, which include/lowhenita.h describes: each hands its arguments on to the function of its own crate that does
// the work, and has that function's promise.
#![tactic(auto)]

ghost use Rattle.values.specs.Window.{window};
ghost use Rattle.values.specs.Pair.{pair_of, looped_pair};
ghost use Rattle.running_host.specs.Laid.{RunFromHost};
ghost use Rattle.search_host.specs.Laid.{SearchFromHost};
ghost use Rattle.decoder_host.specs.Laid.{WindowFromHost, StringFromHost, TableFromHost};
ghost use Rattle.checker_host.specs.Laid.{CheckFromHost};
ghost use Rattle.joining_host.specs.Laid.{JoinFromHost};
ghost use Rattle.kinds_host.specs.Laid.{SearchKindsFromHost, WindowKindsFromHost};
ghost use Rattle.writer_host.specs.Laid.{WriteFromHost};

// Runs the coder from a start state: writes an output letter for each input letter. The file's refusals, 7, 11, 12.
#[unsafe(no_mangle)]
pub extern "C" fn lowhenita_run(
    file: &[u8],
    start: usize,
    input: &[u8],
    output: &mut [u8],
    res: &mut [u8],
) -> usize
    ensures { RunFromHost file.now start input.now
        output.old res.old result output.new res.new }
{
    running_host::run(file, start, input, output, res)
}

// Finds the least window with a settle count that works for a coder in the default order, least lookahead, or the first looped pair where
// none does. The file's refusals, 14, 11.
#[unsafe(no_mangle)]
pub extern "C" fn lowhenita_search(
    file: &[u8],
    settle: usize,
    letters: &mut [u8],
    res: &mut [u8],
) -> usize
    ensures { SearchFromHost file.now settle
        letters.old res.old result letters.new res.new }
{
    search_host::search(file, settle, letters, res)
}

// Decodes each place of a string that has a full window. The file's refusals, 8, 14, 11, 13.
#[unsafe(no_mangle)]
pub extern "C" fn lowhenita_decode(
    file: &[u8],
    before: usize,
    after: usize,
    settle: usize,
    received: &[u8],
    output: &mut [u8],
    res: &mut [u8],
) -> usize
    ensures { StringFromHost file.now (window before after settle) received.now
        output.old res.old result output.new res.new }
{
    decoder_host::string(file, before, after, settle, received, output, res)
}

// Whether a looped pair is valid. The file's refusals, 7, 9, 11, 12.
#[unsafe(no_mangle)]
pub extern "C" fn lowhenita_check(
    file: &[u8],
    s: usize,
    t: usize,
    back_loop: usize,
    lead_in: usize,
    lead_out: usize,
    forward_loop: usize,
    letters: &[u8],
    res: &mut [u8],
) -> usize
    ensures { CheckFromHost file.now
        (pair_of (looped_pair s t back_loop lead_in lead_out forward_loop) letters.now)
        res.old result res.new }
{
    checker_host::check(
        file,
        s,
        t,
        back_loop,
        lead_in,
        lead_out,
        forward_loop,
        letters,
        res,
    )
}

// Decodes one window of received letters. The file's refusals, 8, 14, 9, 11, 13.
#[unsafe(no_mangle)]
pub extern "C" fn lowhenita_window(
    file: &[u8],
    before: usize,
    after: usize,
    settle: usize,
    received: &[u8],
    res: &mut [u8],
) -> usize
    ensures { WindowFromHost file.now (window before after settle) received.now
        res.old result res.new }
{
    decoder_host::window(file, before, after, settle, received, res)
}

// Finds the carried kinds of letter and the first window that tells the kind always and the letter in every carried kind, or that kinds can
// be told by no window. The file's refusals, 16, 11.
#[unsafe(no_mangle)]
pub extern "C" fn lowhenita_search_kinds(file: &[u8], kinds: &[u8], res: &mut [u8]) -> usize
    ensures { SearchKindsFromHost file.now kinds.now res.old result res.new }
{
    kinds_host::search_kinds(file, kinds, res)
}

// Decodes one window of received letters to a letter or a kind. The file's refusals, 16, 8, 9, 11, 13.
#[unsafe(no_mangle)]
pub extern "C" fn lowhenita_window_kinds(
    file: &[u8],
    kinds: &[u8],
    before: usize,
    after: usize,
    received: &[u8],
    res: &mut [u8],
) -> usize
    ensures { WindowKindsFromHost file.now kinds.now before after received.now
        res.old result res.new }
{
    kinds_host::window_kinds(file, kinds, before, after, received, res)
}

// Fills the decoder table: a byte for each window, by its index. The file's refusals, 8, 14, 10, 11.
#[unsafe(no_mangle)]
pub extern "C" fn lowhenita_table(
    file: &[u8],
    before: usize,
    after: usize,
    settle: usize,
    table: &mut [u8],
    res: &mut [u8],
) -> usize
    ensures { TableFromHost file.now (window before after settle)
        table.old res.old result table.new res.new }
{
    decoder_host::table(file, before, after, settle, table, res)
}

// Writes the file of three counts and their entry bytes. Refusals 4 to 6, 15, 11.
#[unsafe(no_mangle)]
pub extern "C" fn lowhenita_write(
    states: usize,
    inputs: usize,
    outputs: usize,
    entries: &[u8],
    file: &mut [u8],
    res: &mut [u8],
) -> usize
    ensures { WriteFromHost states inputs outputs entries.now
        file.old res.old result file.new res.new }
{
    writer_host::write(states, inputs, outputs, entries, file, res)
}

// Writes the file of the joined coder of two coders in a row. The first file's refusals, the second's, 17, 11.
#[unsafe(no_mangle)]
pub extern "C" fn lowhenita_join(
    first: &[u8],
    second: &[u8],
    file: &mut [u8],
    res: &mut [u8],
) -> usize
    ensures { JoinFromHost first.now second.now
        file.old res.old result file.new res.new }
{
    joining_host::join(first, second, file, res)
}
