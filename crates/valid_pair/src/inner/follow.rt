// The two runs of a pair, in step, on the tables.
ghost use Rattle.mealy.specs.LoopedPair.{LoopedPair as Pair};
ghost use Rattle.mealy.specs.Walk.{Loop};
ghost use Rattle.coder.specs.Refusal.{Judges};
ghost use Rattle.coder.specs.Table.{machine_of_coder};
ghost use Rattle.coder.specs.declared.inner.tables.Coder.{Coder};
ghost use Rattle.values.specs.Pair.{pair_of};
ghost use Rattle.valid_pair.specs.Follow.{PairTables, FollowAsked, Follows, CheckAsked, JudgesParts, JudgesValid};

use coder::inner::tables::{Coder, entry};
use setting::inner::has;
use values::LoopedPair;

// Follows n letters of both runs from the states s and t, the letters from `place` on: where both runs end, if the outputs are equal
// throughout.
fn follow(
    c: &Coder,
    letters: &[u8],
    s: usize,
    t: usize,
    place: usize,
    n: usize,
) -> Option<(usize, usize)>
    requires { FollowAsked c.now.next c.now.output letters.now s t place n }
    ensures { (d : Coder) (p : Pair) → PairTables d p c.now.next c.now.output letters.now → Follows (machine_of_coder d) p s t place n result }
{
    let mut u = s;
    let mut v = t;
    for k in 0..n {
        let at = 2 * (place + k);
        let i = usize::from(letters[at]);
        let j = usize::from(letters[at + 1]);
        if entry(&c.output, u, i) != entry(&c.output, v, j) {
            return None;
        }
        u = entry(&c.next, u, i);
        v = entry(&c.next, v, j);
    }
    Some((u, v))
}

// Whether n letters from `place` on lead with equal outputs from (s, t) back to (s, t).
fn closes(c: &Coder, letters: &[u8], s: usize, t: usize, place: usize, n: usize) -> bool
    requires { FollowAsked c.now.next c.now.output letters.now s t place n }
    ensures { (d : Coder) (p : Pair) → PairTables d p c.now.next c.now.output letters.now → Judges (Loop (machine_of_coder d) p place n s t) result }
{
    if n == 0 {
        return false;
    }
    match follow(c, letters, s, t, place, n) {
        Some((u, v)) => u == s && v == t,
        None => false,
    }
}

// Whether the back loop closes, the letters between the loops have equal outputs, and the forward loop closes.
fn parts(c: &Coder, pair: LoopedPair, letters: &[u8]) -> bool
    requires { CheckAsked c.now.next c.now.output (pair_of pair letters.now) }
    ensures { JudgesParts c.now.next c.now.output (pair_of pair letters.now) result }
{
    if !closes(c, letters, pair.s, pair.t, 0, pair.back_loop) {
        return false;
    }
    let n = pair.lead_in + 1 + pair.lead_out;
    let unlooped = pair.back_loop + pair.lead_in + 1 + pair.lead_out;
    match follow(c, letters, pair.s, pair.t, pair.back_loop, n) {
        Some((u, v)) => closes(c, letters, u, v, unlooped, pair.forward_loop),
        None => false,
    }
}

// Whether a pair is valid, with start states and conflicts as words.
pub fn valid(
    c: &Coder,
    starts: u16,
    conflicts: &[u16; 16],
    pair: LoopedPair,
    letters: &[u8],
) -> bool
    requires { CheckAsked c.now.next c.now.output (pair_of pair letters.now) }
    ensures { JudgesValid c.now.next c.now.output starts conflicts.now (pair_of pair letters.now) result }
{
    let mark = pair.back_loop + pair.lead_in;
    let i = usize::from(letters[2 * mark]);
    let j = usize::from(letters[2 * mark + 1]);
    has(starts, pair.s) && has(starts, pair.t) && has(conflicts[i], j) && parts(c, pair, letters)
}
