// No public calls: the lines on a coder without a decoder. Each function writes into a buffer from the place `at` on, and returns the place
// after what it has written.
ghost use Rattle.std.specs.Prelude.{[], ◌∷◌, ◌+◌, ◌*◌, ◌≤◌, length, take};
ghost use Rattle.placing.specs.Placed.{Placed};
ghost use Rattle.values.specs.Pair.{pair_of};
ghost use Rattle.pair_text.specs.Lines.{spaced, pair_line, letters_line, pair_text, PairAsked};

use placing::inner::put;
use text::inner::word_number;
use values::LoopedPair;

// Two numbers, with a space in front of each.
#[tactic(auto, using(crate::proofs::Spaced::two_length))]
fn two(out: &mut [u8], at: usize, x: usize, y: usize) -> usize
    requires { at + length (spaced (x ∷ y ∷ [])) ≤ length out.old }
    ensures { Placed out.old at (spaced (x ∷ y ∷ [])) out.new result }
{
    let a = word_number(out, at, b" ", x);
    word_number(out, a, b" ", y)
}

// The line of start states and lengths.
fn pair_line(out: &mut [u8], at: usize, p: LoopedPair) -> usize
    requires { at + length (pair_line (pair_of p [])) ≤ length out.old }
    ensures { Placed out.old at (pair_line (pair_of p [])) out.new result }
{
    let a = put(out, at, b"pair");
    let b = two(out, a, p.s, p.t);
    let c = two(out, b, p.back_loop, p.lead_in);
    let d = two(out, c, p.lead_out, p.forward_loop);
    put(out, d, b"\n")
}

// The line of the first n letters of a buffer, two bytes each: the first run's, then the second's.
fn letters_line(out: &mut [u8], at: usize, letters: &[u8], n: usize) -> usize
    requires { (2 * n ≤ length letters.now) × (at + length (letters_line (take (2 * n) letters.now)) ≤ length out.old) }
    ensures { Placed out.old at (letters_line (take (2 * n) letters.now)) out.new result }
{
    let mut next = put(out, at, b"letters");
    for i in 0..n {
        let x = usize::from(letters[2 * i]);
        let y = usize::from(letters[2 * i + 1]);
        next = two(out, next, x, y);
    }
    put(out, next, b"\n")
}

// All lines, on the pair whose letters lie in the buffer `letters`.
#[tactic(auto, using(crate::proofs::Lengths::text_length))]
pub fn no_decoder(out: &mut [u8], at: usize, p: LoopedPair, letters: &[u8]) -> usize
    requires { PairAsked (pair_of p letters.now) at out.old }
    ensures { Placed out.old at (pair_text (pair_of p letters.now)) out.new result }
{
    let n = p.back_loop + p.lead_in + 1 + p.lead_out + p.forward_loop;
    let a = put(out, at, b"no decoder\n");
    let b = pair_line(out, a, p);
    letters_line(out, b, letters, n)
}
