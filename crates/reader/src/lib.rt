// The reader of coder files: the public calls. docs/public-calls.md describes them.
#![tactic(auto)]

ghost use Rattle.std.specs.Prelude.{◌≡◌};
ghost use Rattle.reader.specs.Read.{header_of, EntriesPart};

use coder::refusal::Refusal;

pub mod inner; // inner.rt: the refusals of a file; no public calls

// What the header of a file names: its numbers of states, input letters and output letters.
#[derive(Clone, Copy, PartialEq, Eq)]
pub struct Header {
    pub states: usize,
    pub inputs: usize,
    pub outputs: usize,
}

// The file reader's first call: N, I and O, or the refusal, 1 to 6 or 15.
#[tactic(auto, using(coder::proofs::Accepted::accepted_long))]
pub fn counts(file: &[u8]) -> Result<Header, Refusal>
    ensures { result ≡ header_of file.now }
{
    inner::refusal(file)?;
    Ok(Header {
        states: usize::from(file[3]),
        inputs: usize::from(file[4]),
        outputs: usize::from(file[5]),
    })
}

// The file reader's second call: the entries, as the part of the file from byte 6 on; an empty part of a refused file.
#[tactic(auto, using(coder::proofs::Accepted::accepted_long))]
pub fn entries(file: &[u8]) -> &[u8]
    ensures { EntriesPart file.now file.entry.ref_ptr result.now result.ref_ptr }
{
    match inner::refusal(file) {
        Ok(()) => coder::inner::file::entries(file),
        Err(_) => &file[..0],
    }
}
