// No public calls: the lowest letters along a table of costs, that of the pair (u, v) at 16 u + v. Some of these have a `requires`.
ghost use Rattle.std.specs.Prelude.{◌≡◌, ℕ, ◌+◌, ◌*◌, ◌/◌, ◌%◌, ◌<◌, length, get_or};
ghost use Rattle.coder.specs.Refusal.{Judges};
ghost use Rattle.first_pair.specs.Lowest.{LowestOf};
ghost use Rattle.letters.specs.Walk.{EdgeTo, LowestAsked, AfterLetters, with_letters, WriteAsked, WriteDone};

use coder::inner::tables::Coder;
use setting::inner::has;

// Whether the letters 16 i + j with the number k are on an allowed edge from the pair a to a pair whose cost is `want`.
fn edge_to(
    c: &Coder,
    allowed: &[u16; 16],
    t: &[usize; 256],
    a: usize,
    want: usize,
    k: usize,
) -> bool
    requires { (a < 256) × (k < 256) × ((p : ℕ) → get_or c.now.next p 0 < 16) }
    ensures { Judges (EdgeTo c.now.next c.now.output c.now.inputs allowed.now t.now (a / 16) (a % 16) want (k / 16) (k % 16)) result }
{
    let i = k / Coder::INPUTS;
    let j = k % Coder::INPUTS;
    let p = Coder::INPUTS * (a / Coder::STATES) + i;
    let q = Coder::INPUTS * (a % Coder::STATES) + j;
    i < c.inputs
        && j < c.inputs
        && c.output[p] == c.output[q]
        && has(allowed[i], j)
        && t[Coder::STATES * usize::from(c.next[p]) + usize::from(c.next[q])] == want
}

// The lowest letters on such an edge: 16 i + j.
pub fn lowest(c: &Coder, allowed: &[u16; 16], t: &[usize; 256], a: usize, want: usize) -> usize
    requires { LowestAsked c.now.next c.now.output c.now.inputs allowed.now t.now a want }
    ensures { LowestOf (EdgeTo c.now.next c.now.output c.now.inputs allowed.now t.now (a / 16) (a % 16) want) (result / 16) (result % 16) × (result < 256) }
{
    for k in 0..256 {
        if edge_to(c, allowed, t, a, want, k) {
            return k;
        }
    }
    0
}

// The pair that the letters 16 i + j lead to from the pair a.
pub fn after(next: &[u8; 256], a: usize, letters: usize) -> usize
    requires { (a < 256) × (letters < 256) }
    ensures { AfterLetters next.now a letters result }
{
    let p = Coder::INPUTS * (a / Coder::STATES) + letters / Coder::INPUTS;
    let q = Coder::INPUTS * (a % Coder::STATES) + letters % Coder::INPUTS;
    Coder::STATES * usize::from(next[p]) + usize::from(next[q])
}

// Writes the letters x, 16 i + j, at a place: two bytes.
pub fn write_at(letters: &mut [u8], place: usize, x: usize)
    requires { (2 * place + 1 < length letters.old) × (x < 256) }
    ensures { letters.new ≡ with_letters letters.old place (x / 16) (x % 16) }
{
    letters[2 * place] = (x / Coder::INPUTS) as u8;
    letters[2 * place + 1] = (x % Coder::INPUTS) as u8;
}

// The costs of the pairs, and those of a walk along them: `step` for each letter, and `base` at the end.
#[derive(Clone, Copy)]
pub struct WalkCosts<'a> {
    pub table: &'a [usize; 256],
    pub step: usize,
    pub base: usize,
}

// Writes the lowest letters of a walk of n letters from the pair `from` along the costs, from `place` on, two bytes each: with k letters
// still to come they lead to a pair that costs k steps and `base`. Gives the pair where it ends.
pub fn write(
    c: &Coder,
    costs: &WalkCosts,
    from: usize,
    n: usize,
    place: usize,
    letters: &mut [u8],
) -> usize
    requires { WriteAsked c.now.next c.now.output c.now.inputs costs.now.table.now costs.now.step costs.now.base from n place letters.old }
    ensures { WriteDone c.now.next c.now.output c.now.inputs costs.now.table.now costs.now.step costs.now.base from n place letters.old letters.new result }
{
    let allowed = [65535; 16];
    let mut a = from;
    for k in 0..n {
        let want = costs.step * (n - (k + 1)) + costs.base;
        let x = lowest(c, &allowed, costs.table, a, want);
        write_at(letters, place + k, x);
        a = after(&c.next, a, x);
    }
    a
}
