// No public calls: the search's refusal, the search on a checked coder with its start states, on a checked file, and with lent buffers.
ghost use Rattle.std.specs.Prelude.{◌≡◌, true};
ghost use Rattle.values.specs.Order.{relation_of, default_order};
ghost use Rattle.kind_list.specs.KindList.{kind_of};
ghost use Rattle.coder.specs.Refused.{number_in};
ghost use Rattle.search_kinds.specs.Tries.{started, FindAsked};
ghost use Rattle.search_kinds.specs.Search.{search_kinds_refusal, KindsSays, KindsSaysOf, SearchKindsWith};

use crate::Told;
use crate::inner::tries::{carried_kinds, least_window};
use coder::inner::tables::Coder;
use coder::refusal::Refusal;
use least::inner::Depths;

pub mod letters; // letters.rt: the letters that a window for kinds has to tell apart, as words
pub mod tries; // tries.rt: the carried kinds and the first window, from the depths of the product machine

// The refusal of a search for kinds. `fits` says whether all lent buffers are long enough.
#[tactic(auto, unfolding(crate::specs::Search::search_kinds_refusal))]
fn refusal(file: &[u8], kinds: &[u8], fits: bool) -> Result<(), Refusal>
    ensures { number_in result ≡ search_kinds_refusal file.now kinds.now fits }
{
    kind_list::inner::refusal(file, kinds)?;
    if fits {
        Ok(())
    } else {
        Err(Refusal::ShortBuffer)
    }
}

// The report on a coder whose runs start in the states of the word. Where there is no window for the carried kinds, there is none for
// kinds.
fn find(c: &Coder, starts: u16, kinds: &[u8]) -> Option<Told>
    requires { FindAsked c.now starts kinds.now }
    ensures { KindsSays (relation_of default_order) (started c.now starts) (kind_of kinds.now) result }
{
    let depths = Depths::new(c, starts);
    let carried = carried_kinds(&depths, kinds);
    let window = least_window(&depths, kinds, true, carried)?;
    Some(Told { carried, window })
}

// The report on a file that is not refused.
fn checked(file: &[u8], kinds: &[u8]) -> Option<Told>
    requires { search_kinds_refusal file.now kinds.now true ≡ 0 }
    ensures { KindsSaysOf file.now kinds.now result }
{
    let c = Coder::from_checked(file);
    let starts = starts::inner::start_states(&c, 0);
    find(&c, starts, kinds)
}

// The search for kinds, where `others` says whether the lent buffers are long enough: it has none of its own.
pub fn search_kinds(file: &[u8], kinds: &[u8], others: bool) -> Result<Option<Told>, Refusal>
    ensures { SearchKindsWith file.now kinds.now others result }
{
    refusal(file, kinds, others)?;
    Ok(checked(file, kinds))
}
