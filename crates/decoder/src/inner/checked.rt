// The three calls once they are known not to be refused.
ghost use Rattle.std.specs.Prelude.{◌≡◌, true};
ghost use Rattle.decoder_refusal.specs.Refusal.{window_refusal};
ghost use Rattle.mealy.specs.Answer.{Fits};
ghost use Rattle.mealy.specs.Word.{Holds};
ghost use Rattle.coder.specs.File.{file_refusal};
ghost use Rattle.coder.specs.Table.{coder_of};
ghost use Rattle.setting.specs.Words.{setting_of_coder};
ghost use Rattle.fitting.specs.Tables.{TablesOf};
ghost use Rattle.decoder.specs.Window.{window_setting, RightOf};
ghost use Rattle.decoder.specs.Places.{StringAsked, StringGiven};
ghost use Rattle.decoder.specs.Table.{TableAsked, TableGiven};

use crate::inner::places::decode_places;
use chains::inner::rows_by_key;
use coder::inner::tables::Coder;
use decoder_refusal::inner::sizes;
use filling::inner::table::fill;
use fitting::Answer;
use fitting::inner::tables::Sets;
use starts::inner::start_states;
use table_size::inner::size;
use values::Window;

// What decodes the windows of an accepted file with a settle count. Inlined, so that the tables are made where they stay: a call would hold
// them on the stack twice.
#[inline(always)]
fn sets_of(file: &[u8], settle: usize) -> Sets
    requires { file_refusal file.now ≡ 0 }
    ensures tables { TablesOf (coder_of file.now) result.next result.successors result.predecessors result.letters result.starts }
    ensures starts { Holds (setting_of_coder (coder_of file.now) settle).Start result.starts }
{
    let c = Coder::from_checked(file);
    let starts = start_states(&c, settle);
    Sets::of_coder(&c, starts)
}

// The letters that fit a window of received letters.
pub fn letters(file: &[u8], w: Window, received: &[u8]) -> u16
    requires { window_refusal file.now w received.now true ≡ 0 }
    ensures { Holds (Fits (window_setting file.now w) received.now w.before) result }
{
    sets_of(file, w.settle).fitting(received, w.before)
}

// Decodes one window of received letters.
pub fn window(file: &[u8], w: Window, received: &[u8]) -> Answer
    requires { window_refusal file.now w received.now true ≡ 0 }
    ensures { RightOf file.now w received.now result }
{
    sets_of(file, w.settle).decode(received, w.before)
}

// Decodes each place of a string that has a full window; returns how many bytes were written.
pub fn string(file: &[u8], w: Window, received: &[u8], output: &mut [u8]) -> usize
    requires { StringAsked file.now w received.now output.old }
    ensures { StringGiven file.now w received.now output.old result output.new }
{
    let sets = sets_of(file, w.settle);
    let n = sizes::letters(w);
    let count = sizes::places(received.len(), w);
    decode_places(&sets, received, w.before, n, count, output);
    count
}

// Fills the decoder table; returns how many bytes it has.
pub fn table(file: &[u8], w: Window, table: &mut [u8]) -> usize
    requires { TableAsked file.now w table.old }
    ensures { TableGiven file.now w table.old result table.new }
{
    let c = Coder::from_checked(file);
    let rows = rows_by_key(&c.output, c.states, c.inputs);
    let starts = start_states(&c, w.settle);
    let n = sizes::letters(w);
    let count = size(c.outputs, n);
    fill(&c, &rows, starts, n, w.before, &mut table[..count]);
    count
}
