// The successors of each pair of states: word x of the pair (u, v), at 16 (16 u + v) + x, has the states y for which an edge leads from
// (u, v) to (x, y).
ghost use Rattle.std.specs.Prelude.{◌≡◌, ℕ, ◌+◌, ◌*◌, ◌<◌, length, get_or};
ghost use Rattle.mealy.specs.Word.{Holds};
ghost use Rattle.coder.specs.Table.{machine_of_coder, Sound};
ghost use Rattle.cycles.specs.Successors.{SuccessorsAsked, SuccessorsFilled, GivesOutput, SuccessorsOf};

use chains::inner::place_states;
use coder::inner::tables::Coder;
use fitting::inner::tables::by_output;

// The states to which entries of state v lead with the output of the entry at place p; nothing where there is no such entry.
fn given(c: &Coder, to: &[u16; 1024], p: usize, v: usize) -> u16
    requires { (p < 256) × (v < 16) × ((k : ℕ) → get_or c.now.output k 0 < 64) × ((o s : ℕ) → o < 64 → s < 16 → get_or to.now (16 * o + s) 0 < 65536) }
    ensures { Holds (GivesOutput c.now.output to.now c.now.inputs p v) result }
{
    if p % Coder::INPUTS < c.inputs {
        to[Coder::STATES * usize::from(c.output[p]) + v]
    } else {
        0
    }
}

// From the states that the entries of each state lead to, by output letter.
fn fill(c: &Coder, to: &[u16; 1024]) -> [u16; 4096]
    requires { SuccessorsAsked c.now.next c.now.output to.now c.now.states }
    ensures { SuccessorsFilled c.now.next c.now.output to.now c.now.states c.now.inputs result }
{
    let mut words = [0; 4096];
    for p in 0..Coder::INPUTS * c.states {
        let x = usize::from(c.next[p]);
        for v in 0..Coder::STATES {
            let a = Coder::STATES * (p / Coder::INPUTS) + v;
            words[Coder::STATES * a + x] |= given(c, to, p, v);
        }
    }
    words
}

// The successors of the pairs of a coder.
#[inline(never)]
pub fn successors(c: &Coder) -> [u16; 4096]
    requires { Sound c.now }
    ensures { SuccessorsOf (machine_of_coder c.now) result }
{
    let own = place_states();
    let to = by_output(&own, &c.next, &c.output, c.states, c.inputs);
    fill(c, &to)
}
