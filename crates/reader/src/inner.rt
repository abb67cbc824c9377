// No public calls: refusals 1 to 6 and 15 of a coder file, and 4 to 6 and 15 of counts and entries.
ghost use Rattle.std.specs.Prelude.{◌≡◌, ◌+◌, ◌*◌, ◌<◌, ◌≤◌, length};
ghost use Rattle.coder.specs.Refusal.{all_below};
ghost use Rattle.coder.specs.Refused.{number_in};
ghost use Rattle.mealy.specs.Word.{HoldsIn};
ghost use Rattle.coder.specs.Limits.{max_outputs};
ghost use Rattle.coder.specs.Alphabet.{all_named, NamingAsked, NamedBy};
ghost use Rattle.coder.specs.File.{within, in_range, entry_in_range, entries_refusal, count_field, file_refusal};

use coder::inner::file::entries;
use coder::inner::tables::Coder;
use coder::refusal::Refusal;

// Whether x is 1 to max.
#[tactic(auto, unfolding(coder::specs::File::within))]
fn between(x: usize, max: usize) -> bool
    ensures { result ≡ within x max }
{
    1 <= x && x <= max
}

// Whether the three counts are within the limits.
#[tactic(auto, unfolding(coder::specs::File::in_range))]
fn in_range(states: usize, inputs: usize, outputs: usize) -> bool
    ensures { result ≡ in_range states inputs outputs }
{
    between(states, Coder::STATES)
        && between(inputs, Coder::INPUTS)
        && between(outputs, Coder::OUTPUTS)
}

// Whether entry j has its next state and its output letter in range.
#[tactic(auto, unfolding(coder::specs::File::entry_in_range))]
fn entry_in_range(states: usize, outputs: usize, entries: &[u8], j: usize) -> bool
    requires { 2 * j + 1 < length entries.now }
    ensures { result ≡ entry_in_range states outputs entries.now j }
{
    usize::from(entries[2 * j]) < states && usize::from(entries[2 * j + 1]) < outputs
}

// Whether the first n entries are in range.
#[tactic(auto, using(coder::proofs::Refusals::all_of, coder::proofs::Refusals::all_more))]
fn entries_in_range(states: usize, outputs: usize, entries: &[u8], n: usize) -> bool
    requires { 2 * n ≤ length entries.now }
    ensures { result ≡ all_below n (entry_in_range states outputs entries.now) }
{
    for j in 0..n {
        if !entry_in_range(states, outputs, entries, j) {
            return false;
        }
    }
    true
}

// The output letters that the first n entries name, as a word: bit y is set where y is one.
#[tactic(auto, using(coder::proofs::Alphabet::named_none, coder::proofs::Alphabet::named_more))]
fn named_letters(entries: &[u8], n: usize) -> u64
    requires { NamingAsked max_outputs n entries.now }
    ensures { HoldsIn max_outputs (NamedBy n entries.now) result }
{
    let mut letters = 0u64;
    for k in 0..n {
        letters |= 1u64 << entries[2 * k + 1];
    }
    letters
}

// Whether the first n entries name every output letter: the word has all bits below `outputs`.
#[tactic(auto, using(coder::proofs::Alphabet::word_judges))]
fn all_named(outputs: usize, entries: &[u8], n: usize) -> bool
    requires { NamingAsked outputs n entries.now }
    ensures { result ≡ all_named outputs n entries.now }
{
    named_letters(entries, n) == u64::MAX >> (Coder::OUTPUTS - outputs)
}

// Refusals 4 to 6 and 15 of three counts and entry bytes.
#[tactic(auto, unfolding(coder::specs::File::entries_refusal))]
pub fn entries_refusal(
    states: usize,
    inputs: usize,
    outputs: usize,
    entries: &[u8],
) -> Result<(), Refusal>
    ensures { number_in result ≡ entries_refusal states inputs outputs entries.now }
{
    if !in_range(states, inputs, outputs) {
        return Err(Refusal::Counts);
    }
    let n = states * inputs;
    if entries.len() != 2 * n {
        return Err(Refusal::CountField);
    }
    if !entries_in_range(states, outputs, entries, n) {
        return Err(Refusal::Entry);
    }
    if !all_named(outputs, entries, n) {
        return Err(Refusal::UnusedOutput);
    }
    Ok(())
}

// The number in bytes 1 and 2.
fn count_field(file: &[u8]) -> usize
    requires { 6 ≤ length file.now }
    ensures { result ≡ count_field file.now }
{
    usize::from(file[1]) * 256 + usize::from(file[2])
}

// Refusals 1 to 6 and 15.
#[tactic(auto, unfolding(coder::specs::File::file_refusal))]
pub fn refusal(file: &[u8]) -> Result<(), Refusal>
    ensures { number_in result ≡ file_refusal file.now }
{
    let len = file.len();
    if len < 6 {
        return Err(Refusal::ShortFile);
    }
    if file[0] != 1 {
        return Err(Refusal::Version);
    }
    if count_field(file) != len - 3 {
        return Err(Refusal::FileLength);
    }
    entries_refusal(
        usize::from(file[3]),
        usize::from(file[4]),
        usize::from(file[5]),
        entries(file),
    )
}
