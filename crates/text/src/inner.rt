// No public calls: each function writes bytes into a buffer from the place `at` on, and returns the place after them.
ghost use Rattle.std.specs.Prelude.{◌++◌, ◌+◌, ◌-◌, ◌≤◌, length, replicate};
ghost use Rattle.placing.specs.Placed.{Placed};
ghost use Rattle.text.specs.Decimal.{decimal, padded_to};

use placing::inner::{fill, put};

// Spaces to a column, which is a place of the buffer.
pub fn spaces(out: &mut [u8], at: usize, column: usize) -> usize
    requires { column ≤ length out.old }
    ensures { Placed out.old at (replicate (column - at) 32) out.new result }
{
    fill(out, at, column, b' ')
}

// A number in decimal, without leading zeros.
pub fn number(out: &mut [u8], at: usize, n: usize) -> usize
    requires { at + length (decimal n) ≤ length out.old }
    ensures { Placed out.old at (decimal n) out.new result }
{
    let mut digits = [0u8; 20];
    let k = io::decimal(n as u64, &mut digits);
    put(out, at, &digits[..k])
}

// A word, and a number behind it.
pub fn word_number(out: &mut [u8], at: usize, bytes: &[u8], n: usize) -> usize
    requires { at + length bytes.now + length (decimal n) ≤ length out.old }
    ensures { Placed out.old at (bytes.now ++ decimal n) out.new result }
{
    let next = put(out, at, bytes);
    number(out, next, n)
}

// A number at the right end of `width` bytes, with `pad` in front of it: a space, or the digit 0 for leading zeros.
pub fn padded(out: &mut [u8], at: usize, n: usize, width: usize, pad: u8) -> usize
    requires { (length (decimal n) ≤ width) × (at + width ≤ length out.old) }
    ensures { Placed out.old at (padded_to width pad n) out.new result }
{
    let mut digits = [0u8; 20];
    let k = io::decimal(n as u64, &mut digits);
    let first = fill(out, at, at + width - k, pad);
    put(out, first, &digits[..k])
}
