// Tables of a coder by output letter: for state s and output letter o a word at 16 o + s.
ghost use Rattle.std.specs.Prelude.{◌≡◌, ℕ, ◌<◌, get_or};
ghost use Rattle.mealy.specs.Word.{Holds};
ghost use Rattle.coder.specs.Table.{Sound};
ghost use Rattle.fitting.specs.Tables.{EntriesAsked, Gives, ByOutput, SetsOf};

use chains::inner::{place_letters, place_states};
use coder::inner::tables::Coder;

// The value of the entry at place p; nothing where there is no entry.
fn given(values: &[u8; 256], inputs: usize, p: usize) -> u16
    requires { (p < 256) × ((k : ℕ) → get_or values.now k 0 < 16) }
    ensures { Holds (Gives values.now inputs p) result }
{
    if p % Coder::INPUTS < inputs {
        1u16 << values[p]
    } else {
        0
    }
}

// For each key and output letter the values of the entries that have them.
pub fn by_output(
    keys: &[u8; 256],
    values: &[u8; 256],
    output: &[u8; 256],
    states: usize,
    inputs: usize,
) -> [u16; 1024]
    requires { EntriesAsked keys.now values.now output.now states }
    ensures { ByOutput keys.now values.now output.now states inputs result }
{
    let mut words = [0u16; 1024];
    for p in 0..Coder::INPUTS * states {
        let at = Coder::STATES * usize::from(output[p]) + usize::from(keys[p]);
        words[at] |= given(values, inputs, p);
    }
    words
}

// What decodes windows: a coder's next states; its tables by output letter, for each state its successors, its predecessors and its input
// letters; and the states in which a run may start.
#[derive(Clone, Copy)]
pub struct Sets {
    pub next: [u8; 256],
    pub successors: [u16; 1024],
    pub predecessors: [u16; 1024],
    pub letters: [u16; 1024],
    pub starts: u16,
}

impl Sets {
    // The tables of a coder, and these start states. Not inlined: its frame is gone before the caller goes on.
    #[inline(never)]
    pub fn of_coder(c: &Coder, starts: u16) -> Self
        requires { Sound c.now }
        ensures { SetsOf c.now result.successors result.predecessors result.letters × (result.next ≡ c.now.next) × (result.starts ≡ starts) }
    {
        let own = place_states();
        let letters = place_letters();
        Sets {
            next: c.next,
            successors: by_output(&own, &c.next, &c.output, c.states, c.inputs),
            predecessors: by_output(&c.next, &own, &c.output, c.states, c.inputs),
            letters: by_output(&own, &letters, &c.output, c.states, c.inputs),
            starts,
        }
    }
}
