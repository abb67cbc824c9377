// No public calls: the search's refusal, the search on a checked coder with its start states and conflicts, on a checked file, and with
// other lent buffers besides its own.
ghost use Rattle.std.specs.Prelude.{◌≡◌, ◌≤◌, leb, length};
ghost use Rattle.mealy.specs.Setting.{Closed, worded};
ghost use Rattle.coder.specs.Table.{machine_of_coder, Sound};
ghost use Rattle.values.specs.Order.{relation_of};
ghost use Rattle.coder.specs.Refused.{number_in};
ghost use Rattle.search.specs.Search.{search_refusal, wanted, Says, SaysOf, SearchWith};

use crate::Verdict;
use coder::inner::tables::Coder;
use coder::refusal::Refusal;
use layout::inner::enough;
use least::inner::Depths;
use loops::inner::find::find;
use values::Order;

// The bytes that the search wants for any verdict.
pub const WANTED: usize = 1026;

// The refusal of a search. `fits` says whether all lent buffers are long enough.
#[tactic(auto, unfolding(crate::specs::Search::search_refusal))]
fn refusal(file: &[u8], settle: usize, fits: bool) -> Result<(), Refusal>
    ensures { number_in result ≡ search_refusal file.now settle fits }
{
    reader::inner::refusal(file)?;
    window_limits::inner::settle(settle)?;
    if fits {
        Ok(())
    } else {
        Err(Refusal::ShortBuffer)
    }
}

// The verdict on a coder whose runs start in the states of the word, word i of `conflicts` holding the letters that conflict with i; the
// window is the least in the order, and has the settle count whose start states these are.
fn verdict(
    c: &Coder,
    starts: u16,
    conflicts: &[u16; 16],
    order: Order,
    settle: usize,
    letters: &mut [u8],
) -> Verdict
    requires { Sound c.now × Closed (worded (machine_of_coder c.now) starts conflicts.now) × (wanted ≤ length letters.old) }
    ensures { Says (relation_of order) (worded (machine_of_coder c.now) starts conflicts.now) (worded (machine_of_coder c.now) starts conflicts.now) settle result letters.old letters.new }
{
    let depths = Depths::new(c, starts);
    match depths.least_for(conflicts, order, settle) {
        None => Verdict::NoDecoder(find(c, starts, conflicts, letters)),
        Some(w) => Verdict::Least(w),
    }
}

// The verdict on a file that is not refused, the window being the least in the order with that settle count.
fn checked(file: &[u8], order: Order, settle: usize, letters: &mut [u8]) -> Verdict
    requires { search_refusal file.now settle (leb wanted (length letters.old)) ≡ 0 }
    ensures { SaysOf order file.now settle result letters.old letters.new }
{
    let c = Coder::from_checked(file);
    let starts = starts::inner::start_states(&c, settle);
    let conflicts = setting::inner::different_letters();
    verdict(&c, starts, &conflicts, order, settle, letters)
}

// The search in an order, where `others` says whether the lent buffers besides `letters` are long enough.
pub fn search(
    file: &[u8],
    order: Order,
    settle: usize,
    letters: &mut [u8],
    others: bool,
) -> Result<Verdict, Refusal>
    ensures { SearchWith order file.now settle letters.old others result letters.new }
{
    refusal(file, settle, enough(WANTED, letters.len(), others))?;
    Ok(checked(file, order, settle, letters))
}
