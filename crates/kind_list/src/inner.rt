// No public calls: the kind list, a byte for each input letter, and its refusal.
ghost use Rattle.std.specs.Prelude.{◌≡◌};
ghost use Rattle.coder.specs.Refused.{number_in};
ghost use Rattle.kind_list.specs.KindList.{kind_of, kinds_fit, list_refusal};

use coder::inner::bytes::letters_below;
use coder::refusal::Refusal;

// The test behind refusal 16: as many bytes as input letters, each below that number.
fn kinds_fit(inputs: usize, kinds: &[u8]) -> bool
    ensures { result ≡ kinds_fit inputs kinds.now }
{
    kinds.len() == inputs && letters_below(inputs, kinds)
}

// The kind of letter i; 0 where the list has none.
pub fn kind_of(kinds: &[u8], i: usize) -> usize
    ensures { result ≡ kind_of kinds.now i }
{
    if i < kinds.len() {
        usize::from(kinds[i])
    } else {
        0
    }
}

// The file's refusals and 16.
#[tactic(auto, unfolding(crate::specs::KindList::list_refusal))]
pub fn refusal(file: &[u8], kinds: &[u8]) -> Result<(), Refusal>
    ensures { number_in result ≡ list_refusal file.now kinds.now }
{
    reader::inner::refusal(file)?;
    if kinds_fit(usize::from(file[4]), kinds) {
        Ok(())
    } else {
        Err(Refusal::Kinds)
    }
}
