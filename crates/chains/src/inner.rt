// No public calls: the chains and rows of a coder's entries, for the library's own crates.
ghost use Rattle.std.specs.Prelude.{◌≡◌, true, false};
ghost use Rattle.chains.specs.Parts.{place_parts};
ghost use Rattle.chains.specs.Chain.{Keys, Chained};
ghost use Rattle.chains.specs.Rows.{Rowed};

use std::array;

// Entries are numbered from 1: entry p + 1 stands at place p of the tables. `last` has for each key the last entry with that key,
// and `previous` for the place of an entry the entry before it with the same key; 0 for none.
#[derive(Clone, Copy)]
pub struct Chain {
    pub last: [u16; 64],
    pub previous: [u16; 256],
}

// The places of the entries with key k stand side by side in `entries`, from place start[k] to the one before start[k + 1], the last
// entry first.
#[derive(Clone, Copy)]
pub struct Rows {
    pub start: [u16; 65],
    pub entries: [u8; 256],
}

// Chains the entries of a coder with the given counts by their keys.
pub fn by_key(keys: &[u8; 256], states: usize, inputs: usize) -> Chain
    requires { Keys keys.now states inputs }
    ensures { Chained keys.now states inputs result }
{
    let mut last = [0u16; 64];
    let mut previous = [0u16; 256];
    for p in 0..16 * states {
        if p % 16 < inputs {
            let key = usize::from(keys[p]);
            previous[p] = last[key];
            last[key] = (p + 1) as u16;
        }
    }
    Chain { last, previous }
}

// Chains the entries of a coder with the given counts by their keys and lays each chain out as a row.
pub fn rows_by_key(keys: &[u8; 256], states: usize, inputs: usize) -> Rows
    requires { Keys keys.now states inputs }
    ensures { Rowed keys.now states inputs result }
{
    let chain = by_key(keys, states, inputs);
    let mut start = [0u16; 65];
    let mut entries = [0u8; 256];
    let mut n = 0;
    for k in 0..64 {
        let mut q = usize::from(chain.last[k]);
        // A while loop: the chain says where to go on.
        while 0 < q {
            let p = q - 1;
            entries[n] = p as u8;
            n += 1;
            q = usize::from(chain.previous[p]);
        }
        start[k + 1] = n as u16;
    }
    Rows { start, entries }
}

// The state of each place of a coder's tables.
pub fn place_states() -> [u8; 256]
    ensures { result ≡ place_parts false }
{
    array::from_fn(|p| (p / 16) as u8)
}

// The input letter of each place.
pub fn place_letters() -> [u8; 256]
    ensures { result ≡ place_parts true }
{
    array::from_fn(|p| (p % 16) as u8)
}
