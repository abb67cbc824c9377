// No public calls: the run's refusal, the run of a checked call, and the run with other lent buffers besides its own.
ghost use Rattle.std.specs.Prelude.{◌≡◌};
ghost use Rattle.coder.specs.File.{machine_of};
ghost use Rattle.coder.specs.Refused.{number_in};
ghost use Rattle.running.specs.Run.{run_refusal, tables_machine, Runnable, Ran, RunAsked, RunWith};

use crate::RunEnd;
use coder::inner::bytes::letters_below;
use coder::inner::tables::{Coder, entry};
use coder::refusal::Refusal;
use layout::inner::enough;

// The refusal of a run. `fits` says whether all lent buffers are long enough.
#[tactic(auto, using(coder::proofs::Accepted::accepted_long), unfolding(crate::specs::Run::run_refusal))]
fn refusal(file: &[u8], start: usize, input: &[u8], fits: bool) -> Result<(), Refusal>
    ensures { number_in result ≡ run_refusal file.now start input.now fits }
{
    reader::inner::refusal(file)?;
    if usize::from(file[3]) <= start {
        return Err(Refusal::StartState);
    }
    if !fits {
        return Err(Refusal::ShortBuffer);
    }
    if !letters_below(usize::from(file[4]), input) {
        return Err(Refusal::InputLetter);
    }
    Ok(())
}

// Writes the output letters of the run from start on the input, and returns the state in which it ends.
#[tactic(auto, using(crate::proofs::Running::reaching))]
fn letters(c: &Coder, start: usize, input: &[u8], written: &mut [u8]) -> usize
    requires { Runnable c.now.next start input.now written.old }
    ensures { Ran (tables_machine c.now.next c.now.output) start input.now written.old result written.new }
{
    let mut s = start;
    for (i, x) in input.iter().enumerate() {
        let letter = usize::from(*x);
        written[i] = entry(&c.output, s, letter) as u8;
        s = entry(&c.next, s, letter);
    }
    s
}

// The same on a file, in a call that is not refused.
fn checked(file: &[u8], start: usize, input: &[u8], output: &mut [u8]) -> usize
    requires { RunAsked file.now start input.now output.old }
    ensures { Ran (machine_of file.now) start input.now output.old result output.new }
{
    letters(&Coder::from_checked(file), start, input, output)
}

// Runs the coder, where `others` says whether the lent buffers besides `output` are long enough.
pub fn run(
    file: &[u8],
    start: usize,
    input: &[u8],
    output: &mut [u8],
    others: bool,
) -> Result<RunEnd, Refusal>
    ensures { RunWith file.now start input.now output.old others result output.new }
{
    refusal(
        file,
        start,
        input,
        enough(input.len(), output.len(), others),
    )?;
    let end = checked(file, start, input, output);
    Ok(RunEnd {
        count: input.len(),
        end,
    })
}
