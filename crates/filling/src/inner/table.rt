// The decoder table, filled letter by letter: the windows that begin alike share the pass over what they have in common.
ghost use Rattle.std.specs.Prelude.{length};
ghost use Rattle.coder.specs.declared.inner.tables.Coder.{Coder};
ghost use Rattle.filling.specs.Sets.{RowsOf};
ghost use Rattle.filling.specs.Table.{LastAsked, LastFilled, PartAsked, PartGiven, FillAsked, FillGiven};

use crate::inner::sets::{EMPTY, advance, letters_after, start_sets};
use chains::inner::Rows;
use coder::inner::tables::Coder;
use fitting::inner::answer::{UNCOUNTED, answer_byte, answer_of};

// Fills the part of the table whose windows have one letter more. `here` says whether that is the present one.
fn fill_last(rows: &Rows, v: &[u16; 16], here: bool, table: &mut [u8])
    requires { LastAsked rows.now.start rows.now.entries (length table.old) v.now table.old }
    ensures { (c : Coder) → RowsOf c rows.now.start rows.now.entries → LastFilled c v.now here (length table.old) table.new }
{
    for (o, byte) in table.iter_mut().enumerate() {
        *byte = answer_byte(answer_of(letters_after(rows, v, o, here), UNCOUNTED));
    }
}

// Fills the part of the table whose windows have `left` letters more, after letters that led to the sets v. The present letter is
// the one numbered `present` of those left, counted from 1; 0 where it has been read.
fn fill_part(
    coder: &Coder,
    rows: &Rows,
    v: &[u16; 16],
    left: usize,
    present: usize,
    table: &mut [u8],
)
    requires { PartAsked coder.now.next rows.now.start rows.now.entries coder.now.outputs v.now left present table.old }
    ensures { PartGiven coder.now.next rows.now.start rows.now.entries coder.now.outputs v.now left present table.new }
{
    if left == 1 {
        fill_last(rows, v, present == 1, table);
        return;
    }
    let size = table.len() / coder.outputs;
    let after = present.saturating_sub(1);
    for o in 0..coder.outputs {
        let mut to = [EMPTY; 16];
        advance(&coder.next, rows, v, o, present == 1, &mut to);
        let from = o * size;
        let end = from + size;
        fill_part(coder, rows, &to, left - 1, after, &mut table[from..end]);
    }
}

// Fills the table of the windows of n letters with b letters before the present one.
pub fn fill(coder: &Coder, rows: &Rows, starts: u16, n: usize, b: usize, table: &mut [u8])
    requires { FillAsked coder.now.next rows.now.start rows.now.entries coder.now.outputs n b table.old }
    ensures { FillGiven coder.now.next rows.now.start rows.now.entries coder.now.outputs starts n b table.new }
{
    let v = start_sets(starts);
    fill_part(coder, rows, &v, n, b + 1, table);
}
