// No public calls: the call's refusal, the joined file of a checked call, and the call with other lent buffers besides its own.
ghost use Rattle.std.specs.Prelude.{◌≡◌, ◌≤◌, length};
ghost use Rattle.coder.specs.Refused.{number_in};
ghost use Rattle.writer.specs.Write.{FileWritten};
ghost use Rattle.joining.specs.Join.{matching, joined_file, join_refusal_in, JoinAsked, JoinWith};
ghost use Rattle.joining.specs.Tables.{EntryAsked, joined_entry, PlaceAsked, NextPlace, CodersMatch, EntriesFirst};

use coder::inner::tables::{Coder, entry};
use coder::refusal::Refusal;
use layout::inner::enough;

// What 17 asks: whether the first O is the second I, and the product of the two N within the limit.
fn matches(first: &[u8], second: &[u8]) -> bool
    requires { (6 ≤ length first.now) × (6 ≤ length second.now) }
    ensures { result ≡ matching first.now second.now }
{
    first[5] == second[4] && usize::from(first[3]) * usize::from(second[3]) <= Coder::STATES
}

// The number of bytes of the joined file.
#[tactic(auto, using(crate::proofs::Files::joined_size))]
fn size(first: &[u8], second: &[u8]) -> usize
    requires { (6 ≤ length first.now) × (6 ≤ length second.now) }
    ensures { result ≡ length (joined_file first.now second.now) }
{
    6 + 2 * (usize::from(first[3]) * usize::from(second[3]) * usize::from(first[4]))
}

// The refusal of two files whose joined file is to be written into a buffer of `room` bytes. `others` says whether all other lent buffers
// are long enough.
#[tactic(auto, using(coder::proofs::Accepted::accepted_long), unfolding(crate::specs::Join::join_refusal))]
fn refusal(first: &[u8], second: &[u8], room: usize, others: bool) -> Result<(), Refusal>
    ensures { number_in result ≡ join_refusal_in first.now second.now room others }
{
    reader::inner::refusal(first)?;
    reader::inner::refusal(second)?;
    if !matches(first, second) {
        return Err(Refusal::Row);
    }
    if !enough(size(first, second), room, others) {
        return Err(Refusal::ShortBuffer);
    }
    Ok(())
}

// The two bytes of an entry.
#[derive(Clone, Copy)]
pub struct EntryBytes {
    pub next: u8,
    pub output: u8,
}

// Where an entry of two coders in a row stands: a state of each, and an input letter.
#[derive(Clone, Copy)]
pub struct Place {
    pub first: usize,
    pub second: usize,
    pub letter: usize,
}

// The entry of two coders in a row that stands at a place.
fn joined_entry(c: &Coder, d: &Coder, at: Place) -> EntryBytes
    requires { EntryAsked c.now.next c.now.output d.now.next d.now.states at.first at.second at.letter }
    ensures { result ≡ joined_entry c.now.next c.now.output
        d.now.next d.now.output d.now.states at.first at.second at.letter }
{
    let y = entry(&c.output, at.first, at.letter);
    let next = entry(&c.next, at.first, at.letter) * d.states + entry(&d.next, at.second, y);
    let output = entry(&d.output, at.second, y);
    EntryBytes {
        next: next as u8,
        output: output as u8,
    }
}

// The place after this one. The second coder has `states` states, and there are `inputs` input letters.
fn next_place(at: Place, states: usize, inputs: usize) -> Place
    requires { PlaceAsked at }
    ensures { NextPlace states inputs at result }
{
    if at.letter + 1 < inputs {
        return Place {
            letter: at.letter + 1,
            ..at
        };
    }
    if at.second + 1 < states {
        return Place {
            second: at.second + 1,
            letter: 0,
            ..at
        };
    }
    Place {
        first: at.first + 1,
        second: 0,
        letter: 0,
    }
}

// The entry bytes of two coders in a row, at the front of an array.
fn entries(c: &Coder, d: &Coder) -> [u8; 512]
    requires { CodersMatch c.now d.now }
    ensures { EntriesFirst c.now d.now result }
{
    let mut bytes = [0u8; 512];
    let mut at = Place {
        first: 0,
        second: 0,
        letter: 0,
    };
    for j in 0..c.states * d.states * c.inputs {
        let e = joined_entry(c, d, at);
        bytes[2 * j] = e.next;
        bytes[2 * j + 1] = e.output;
        at = next_place(at, d.states, c.inputs);
    }
    bytes
}

// Writes the joined file, in a call that is not refused, and returns the number of its bytes.
#[tactic(auto, using(crate::proofs::Coding::coders_match, crate::proofs::Coding::entries_few))]
fn checked(first: &[u8], second: &[u8], file: &mut [u8]) -> usize
    requires { JoinAsked first.now second.now file.old }
    ensures { FileWritten (joined_file first.now second.now) file.old result file.new }
{
    let c = Coder::from_checked(first);
    let d = Coder::from_checked(second);
    let states = c.states * d.states;
    let inputs = c.inputs;
    let outputs = d.outputs;
    let bytes = entries(&c, &d);
    let end = 2 * (states * inputs);
    writer::inner::checked(states, inputs, outputs, &bytes[..end], file)
}

// Joins the two coders, where `others` says whether the lent buffers besides `file` are long enough.
#[tactic(auto, using(crate::proofs::Joining::join_asked))]
pub fn join(first: &[u8], second: &[u8], file: &mut [u8], others: bool) -> Result<usize, Refusal>
    ensures { JoinWith first.now second.now file.old others result file.new }
{
    refusal(first, second, file.len(), others)?;
    let count = checked(first, second, file);
    Ok(count)
}
