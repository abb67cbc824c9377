// Coder: the counts and the two tables of a checked file, and the limits.
ghost use Rattle.std.specs.Prelude.{◌≡◌, ◌*◌, ◌<◌, length};
ghost use Rattle.coder.specs.Limits.{max_states, max_inputs};
ghost use Rattle.coder.specs.File.{entries_refusal, file_refusal, entry_of};
ghost use Rattle.coder.specs.Table.{coder_of_entries, coder_of, table_of, table_at, limits_of, Tabled};

use crate::inner::file::entries;

// A coder: the entry of state s and input letter i stands at 16 s + i of both tables; the other places hold 0.
#[derive(Clone, Copy)]
pub struct Coder {
    pub states: usize,
    pub inputs: usize,
    pub outputs: usize,
    pub next: [u8; 256],
    pub output: [u8; 256],
}

#[derive(Clone, Copy)]
pub struct Limits {
    pub states: usize,
    pub inputs: usize,
    pub outputs: usize,
    pub side: usize,
    pub settle: usize,
}

impl Coder {
    pub const STATES: usize = 16;

    pub const INPUTS: usize = 16;

    pub const OUTPUTS: usize = 64;

    pub const SIDE: usize = 136;

    pub const SETTLE: usize = 64;

    // The constants are the limits of specs/Limits.antt.
    pub fn limits() -> Limits
        ensures { result ≡ limits_of }
    {
        Limits {
            states: Self::STATES,
            inputs: Self::INPUTS,
            outputs: Self::OUTPUTS,
            side: Self::SIDE,
            settle: Self::SETTLE,
        }
    }
}

// A byte of the entry of state s and letter i: offset 0 has the next state, offset 1 the output letter; 0 where there is no such
// entry.
#[tactic(auto, unfolding(crate::specs::File::entry_of))]
fn entry_byte(states: usize, inputs: usize, entries: &[u8], offset: usize, s: usize, i: usize) -> u8
    requires { (length entries.now ≡ 2 * (states * inputs)) × (offset < 2) }
    ensures { result ≡ entry_of states inputs entries.now offset s i }
{
    if s < states && i < inputs {
        entries[2 * (inputs * s + i) + offset]
    } else {
        0
    }
}

// One table: offset 0 has the next states, offset 1 the output letters.
fn entry_table(states: usize, inputs: usize, entries: &[u8], offset: usize) -> [u8; 256]
    requires { Tabled states inputs entries.now offset }
    ensures { result ≡ table_of states inputs entries.now offset }
{
    let mut table = [0u8; 256];
    for k in 0..Coder::INPUTS * states {
        table[k] = entry_byte(
            states,
            inputs,
            entries,
            offset,
            k / Coder::INPUTS,
            k % Coder::INPUTS,
        );
    }
    table
}

impl Coder {
    // The coder of counts and entries that refusals 4 to 6 and 15 pass.
    pub fn from_entries(states: usize, inputs: usize, outputs: usize, entries: &[u8]) -> Self
        requires { entries_refusal states inputs outputs entries.now ≡ 0 }
        ensures { result ≡ coder_of_entries states inputs outputs entries.now }
    {
        Coder {
            states,
            inputs,
            outputs,
            next: entry_table(states, inputs, entries, 0),
            output: entry_table(states, inputs, entries, 1),
        }
    }

    // The coder of a checked file.
    #[tactic(auto, using(crate::proofs::Accepted::accepted_long, crate::proofs::Accepted::file_entries), unfolding(crate::specs::Table::coder_of))]
    pub fn from_checked(file: &[u8]) -> Self
        requires { file_refusal file.now ≡ 0 }
        ensures { result ≡ coder_of file.now }
    {
        Coder::from_entries(
            usize::from(file[3]),
            usize::from(file[4]),
            usize::from(file[5]),
            entries(file),
        )
    }
}

// What a table holds for state s and letter i.
#[tactic(auto, unfolding(crate::specs::Table::table_at))]
pub fn entry(table: &[u8; 256], s: usize, i: usize) -> usize
    requires { (s < max_states) × (i < max_inputs) }
    ensures { (result ≡ table_at table.now s i) × (result < 256) }
{
    usize::from(table[Coder::INPUTS * s + i])
}
