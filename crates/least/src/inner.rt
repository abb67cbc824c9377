// No public calls: the letters before that each lookahead needs, the choice among the candidates, and from these the least window or none.
ghost use Rattle.std.specs.Prelude.{◌≡◌, ℕ, ◌<◌, true, get_or};
ghost use Rattle.mealy.specs.Setting.{ClosedOf};
ghost use Rattle.coder.specs.Limits.{max_side};
ghost use Rattle.coder.specs.Table.{machine_of_coder, Sound};
ghost use Rattle.chains.specs.Chain.{is_entry, Chained};
ghost use Rattle.product.specs.Depth.{endless};
ghost use Rattle.product.specs.Rounds.{StartIn};
ghost use Rattle.values.specs.Order.{relation_of};
ghost use Rattle.least.specs.Need.{CountAsked, CountedOne, RowDone, ConflictsDone, Needs, Chosen};
ghost use Rattle.least.specs.Report.{DepthsOf, LeastGiven};

use chains::inner::{Chain, by_key};
use coder::inner::tables::Coder;
use product::inner::{ENDLESS, back, forward};
use setting::inner::has;
use values::inner::no_later;
use values::{Order, Window};

// The depths of a coder's pairs of states, back and forward, and the chains of its entries by output letter.
#[derive(Drop)]
pub struct Depths<'a> {
    pub coder: &'a Coder,
    pub chain: Chain,
    pub back: [[u8; 16]; 16],
    pub forward: [[u8; 16]; 16],
    ghost sound: { Sound coder.now },
    ghost chained: { Chained coder.now.output coder.now.states coder.now.inputs chain },
    ghost depths: { ∥ ((starts : ℕ) × DepthsOf coder.now starts back forward) ∥₁ },
}

impl<'a> Depths<'a> {
    // The depths for runs that start in the states of the word.
    pub fn new(coder: &'a Coder, starts: u16) -> Depths<'a>
        requires { Sound coder.now × ClosedOf (machine_of_coder coder.now) (StartIn coder.now.states starts) }
        ensures coder { result.coder.now ≡ coder.now }
        ensures depths { DepthsOf coder.now starts result.back result.forward }
    {
        Depths {
            coder,
            chain: by_key(&coder.output, coder.states, coder.inputs),
            back: back(coder, starts),
            forward: forward(coder, starts),
        }
    }

    // Counts the edge of the entries at places p and q, or says that it is endless on both sides.
    fn count(&self, p: usize, q: usize, worst: &mut [u8; 256]) -> bool
        requires { CountAsked self.now.coder.now.next p q }
        ensures { CountedOne self.now.coder.now.next self.now.back self.now.forward p q worst.old result worst.new }
    {
        let next = &self.coder.next;
        let b = self.back[p / Coder::INPUTS][q / Coder::INPUTS];
        let f = self.forward[usize::from(next[p])][usize::from(next[q])];
        if b == ENDLESS && f == ENDLESS {
            return true;
        }
        let place = usize::from(f);
        if worst[place] < b {
            worst[place] = b;
        }
        false
    }

    // Counts the edges of the entry at place p with the entries that conflict with it, up to one that is endless on both sides; says
    // whether there is one. Where no letter conflicts with the entry's, the chain is not gone through.
    fn row(&self, conflicts: &[u16; 16], p: usize, worst: &mut [u8; 256]) -> bool
        requires { is_entry self.now.coder.now.states self.now.coder.now.inputs p ≡ true }
        ensures { RowDone self.now.coder.now conflicts.now self.now.back self.now.forward p worst.old result worst.new }
    {
        let set = conflicts[p % Coder::INPUTS];
        if set == 0 {
            return false;
        }
        let mut y = self.chain.last[usize::from(self.coder.output[p])];
        // A while loop: the chain says where to go on.
        while 0 < y {
            let q = usize::from(y) - 1;
            y = self.chain.previous[q];
            if has(set, q % Coder::INPUTS) && self.count(p, q, worst) {
                return true;
            }
        }
        false
    }

    // The most letters before that a conflicting edge has at each depth forward, word i of `conflicts` holding the letters that conflict
    // with i; or none where such an edge is endless on both sides.
    fn count_edges(&self, conflicts: &[u16; 16]) -> Option<[u8; 256]>
        ensures { ConflictsDone self.now.coder.now conflicts.now self.now.back self.now.forward result }
    {
        let mut worst = [0u8; 256];
        for s in 0..self.coder.states {
            for i in 0..self.coder.inputs {
                if self.row(conflicts, Coder::INPUTS * s + i, &mut worst) {
                    return None;
                }
            }
        }
        Some(worst)
    }

    // The least window, in the order, that tells conflicting letters apart, or none; word i of `conflicts` holds the letters that conflict
    // with i. The window has the settle count whose start states the depths are of.
    pub fn least_for(&self, conflicts: &[u16; 16], order: Order, settle: usize) -> Option<Window>
        ensures { LeastGiven (relation_of order) settle self.now.coder.now self.now.back self.now.forward conflicts.now result }
    {
        let worst = self.count_edges(conflicts)?;
        Some(choose(order, settle, &needs(&worst)))
    }
}

// The letters before that each lookahead needs: the most that the table has past it.
fn needs(worst: &[u8; 256]) -> [u8; 256]
    ensures { Needs worst.now result }
{
    let mut need = [0u8; 256];
    let mut most = 0;
    for f in (0..usize::from(ENDLESS)).rev() {
        most = worst[f + 1].max(most);
        need[f] = most;
    }
    need
}

// The first of the candidates in the order, as a window with the settle count that the letters needed were found for.
fn choose(order: Order, settle: usize, need: &[u8; 256]) -> Window
    requires { get_or need.now max_side 0 < endless }
    ensures { Chosen (relation_of order) settle need.now result }
{
    let mut best = Window {
        before: usize::from(need[Coder::SIDE]),
        after: Coder::SIDE,
        settle,
    };
    for after in (0..Coder::SIDE).rev() {
        if need[after] < ENDLESS {
            let candidate = Window {
                before: usize::from(need[after]),
                after,
                settle,
            };
            if no_later(order, candidate, best) {
                best = candidate;
            }
        }
    }
    best
}
