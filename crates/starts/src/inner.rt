// No public calls: the states in which a run may start, as a word of 16 bits: bit s is set where s is one.
ghost use Rattle.mealy.specs.Word.{Holds};
ghost use Rattle.coder.specs.Table.{machine_of_coder, Sound};
ghost use Rattle.fitting.specs.Tables.{Words};
ghost use Rattle.setting.specs.Words.{setting_of_coder};
ghost use Rattle.starts.specs.Steps.{StepsOf, ClosureOf, AfterOf};

use chains::inner::place_states;
use coder::inner::tables::Coder;
use fitting::inner::sets::image;
use fitting::inner::tables::by_output;

// For each state the states that its entries lead to, whatever their letters: with output letter 0 for all of them, the word at place s.
fn steps(c: &Coder) -> [u16; 1024]
    requires { Sound c.now }
    ensures { StepsOf (machine_of_coder c.now) result }
{
    by_output(&place_states(), &c.next, &[0u8; 256], c.states, c.inputs)
}

// State 0 and all states that these steps lead to from it. With N states this takes N - 1 steps at most.
fn closure(words: &[u16; 1024], states: usize) -> u16
    requires { Words words.now }
    ensures { ClosureOf words.now states result }
{
    let mut set = 1u16;
    for _ in 1..states {
        let more = set | image(words, 0, set);
        if more == set {
            return set;
        }
        set = more;
    }
    set
}

// The states in which these steps end, `settle` of them, from the reachable states. Where a step changes nothing, no further one does.
fn after(words: &[u16; 1024], reachable: u16, settle: usize) -> u16
    requires { Words words.now }
    ensures { AfterOf words.now reachable settle result }
{
    let mut to = reachable;
    for _ in 0..settle {
        let next = image(words, 0, to);
        if next == to {
            return to;
        }
        to = next;
    }
    to
}

// The start states of a coder for a settle count: where that many letters lead from its reachable states.
pub fn start_states(c: &Coder, settle: usize) -> u16
    requires { Sound c.now }
    ensures { Holds (setting_of_coder c.now settle).Start result }
{
    let words = steps(c);
    let reachable = closure(&words, c.states);
    after(&words, reachable, settle)
}
