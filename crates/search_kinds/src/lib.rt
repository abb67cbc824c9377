// The search for kinds of letter. docs/public-calls.md describes the call.
#![tactic(auto)]

ghost use Rattle.search_kinds.specs.Search.{SearchKindsPromise};

use coder::refusal::Refusal;

pub mod inner; // inner.rt: the search with lent buffers; no public calls

// Where a window tells kinds: the carried kinds, as a word that has bit k for kind k, and the first window that tells the kind always and
// the letter in every carried kind.
#[derive(Clone, Copy, PartialEq, Eq)]
pub struct Told {
    pub carried: u16,
    pub window: values::Window,
}

// Finds the carried kinds and the first window, in the default order and with settle count 0, that tells the kind always and the letter in
// every carried kind; none where no window tells kinds. `kinds` has a byte for each input letter. The file's refusals, 16.
pub fn search_kinds(file: &[u8], kinds: &[u8]) -> Result<Option<Told>, Refusal>
    ensures { SearchKindsPromise file.now kinds.now result }
{
    inner::search_kinds(file, kinds, true)
}
