// No public calls: the writer's refusal, the file of a checked call, and the writer with other lent buffers besides its own.
ghost use Rattle.std.specs.Prelude.{◌≡◌};
ghost use Rattle.coder.specs.File.{file_of};
ghost use Rattle.coder.specs.Refused.{number_in};
ghost use Rattle.writer.specs.Write.{write_refusal_in, first_six, FirstSixAsked, WriteAsked, FileWritten, WriteWith};

use coder::refusal::Refusal;
use placing::inner::put;
use reader::inner::entries_refusal;

// The refusal of a file to be written into a buffer of `room` bytes. `others` says whether all other lent buffers are long enough.
#[tactic(auto, using(crate::proofs::Writing::length_file), unfolding(crate::specs::Write::write_refusal))]
fn refusal(
    states: usize,
    inputs: usize,
    outputs: usize,
    entries: &[u8],
    room: usize,
    others: bool,
) -> Result<(), Refusal>
    ensures { number_in result ≡ write_refusal_in states inputs outputs entries.now room others }
{
    entries_refusal(states, inputs, outputs, entries)?;
    if 6 + entries.len() <= room && others {
        Ok(())
    } else {
        Err(Refusal::ShortBuffer)
    }
}

// The first six bytes of a file with `size` entry bytes: version, count field and counts.
#[tactic(auto, unfolding(coder::specs::BigEndian::big_endian))]
fn first_six(states: usize, inputs: usize, outputs: usize, size: usize) -> [u8; 6]
    requires { FirstSixAsked states inputs outputs size }
    ensures { result ≡ first_six states inputs outputs size }
{
    let count = 3 + size;
    [
        1u8,
        (count / 256) as u8,
        (count % 256) as u8,
        states as u8,
        inputs as u8,
        outputs as u8,
    ]
}

// Writes the file, in a call that is not refused, and returns the number of its bytes.
#[tactic(auto, using(crate::proofs::Writing::parts_fit))]
pub fn checked(
    states: usize,
    inputs: usize,
    outputs: usize,
    entries: &[u8],
    file: &mut [u8],
) -> usize
    requires { WriteAsked states inputs outputs entries.now file.old }
    ensures { FileWritten (file_of states inputs outputs entries.now) file.old result file.new }
{
    let first = first_six(states, inputs, outputs, entries.len());
    let at = put(file, 0, &first[..]);
    put(file, at, entries)
}

// Writes the file, where `others` says whether the lent buffers besides `file` are long enough.
#[tactic(auto, using(crate::proofs::Writing::write_accepted))]
pub fn write(
    states: usize,
    inputs: usize,
    outputs: usize,
    entries: &[u8],
    file: &mut [u8],
    others: bool,
) -> Result<usize, Refusal>
    ensures { WriteWith states inputs outputs entries.now file.old others result file.new }
{
    refusal(states, inputs, outputs, entries, file.len(), others)?;
    let count = checked(states, inputs, outputs, entries, file);
    Ok(count)
}
