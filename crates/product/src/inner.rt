// No public calls: the depth squares of the product machine, on the tables of a checked coder. Some of these have a `requires`.
//
// One code for both directions: `far` has the far end of each entry, and the chain has the entries by their near ends.
ghost use Rattle.std.specs.Prelude.{◌≡◌, ◌&&◌, ◌<◌, ◌≤◌, get_or, ltb, eqb};
ghost use Rattle.mealy.specs.Product.{Direction, back as backward, forward as onward};
ghost use Rattle.coder.specs.Table.{machine_of_coder, Sound};
ghost use Rattle.product.specs.Depth.{at, Depths};
ghost use Rattle.product.specs.Entries.{near_ends, far_ends};
ghost use Rattle.product.specs.Rounds.{SeekAsked, SeekDone, RoundAsked, RoundDone, StartIn};
ghost use Rattle.product.specs.Rounds.{Started, FirstEdges, AlongAsked};

use chains::inner::{Chain, by_key, place_states};
use coder::inner::tables::Coder;
use setting::inner::both_start;

// The depth of an endless pair: one that stands at every level.
pub const ENDLESS: u8 = 255;

// The numbers of two entries, counted from 1: an edge of the product machine where both are above 0.
#[derive(Clone, Copy)]
struct Edge {
    pub x: u16,
    pub y: u16,
}

// Whether the entries at places p and q have one output letter and far ends of depth above k.
fn stands<'a>(
    c: &'a Coder,
    far: &'a [u8; 256],
    d: &'a [[u8; 16]; 16],
    p: usize,
    q: usize,
    k: u8,
) -> bool
    requires { (p < 256) × (q < 256) × (get_or far.now p 0 < 16) × (get_or far.now q 0 < 16) }
    ensures { result ≡ (eqb (get_or c.now.output p 0) (get_or c.now.output q 0) && ltb k (at d.now (get_or far.now p 0) (get_or far.now q 0))) }
{
    c.output[p] == c.output[q] && k < d[usize::from(far[p])][usize::from(far[q])]
}

// From the edge `from` on, the first edge of its pair whose far ends have a depth above k. The second near end is v.
fn seek<'a>(
    c: &'a Coder,
    chain: &'a Chain,
    far: &'a [u8; 256],
    d: &'a [[u8; 16]; 16],
    v: usize,
    from: Edge,
    k: u8,
) -> Option<Edge>
    requires { SeekAsked c.now chain.now far.now d.now k v from }
    ensures { SeekDone c.now chain.now far.now d.now k v from result }
{
    let mut x = from.x;
    let mut y = from.y;
    // A while loop: the chains say where to go on.
    while 0 < x {
        if y == 0 {
            x = chain.previous[usize::from(x) - 1];
            y = chain.last[v];
        } else {
            let p = usize::from(x) - 1;
            let q = usize::from(y) - 1;
            if stands(c, far, d, p, q, k) {
                return Some(Edge { x, y });
            }
            y = chain.previous[q];
        }
    }
    None
}

// One round: a pair that stands at level k and has no neighbour there gets the depth k + 1. Says whether any pair does.
fn round<'a>(
    c: &'a Coder,
    chain: &'a Chain,
    far: &'a [u8; 256],
    d: &mut [[u8; 16]; 16],
    edges: &mut [[Edge; 16]; 16],
    k: u8,
) -> bool
    requires { RoundAsked c.now chain.now far.now k d.old edges.old }
    ensures { RoundDone c.now chain.now far.now k d.old edges.old d.new edges.new result }
{
    let mut changed = false;
    for u in 0..c.states {
        for v in 0..Coder::STATES {
            if d[u][v] == ENDLESS {
                match seek(c, chain, far, d, v, edges[u][v], k) {
                    Some(edge) => edges[u][v] = edge,
                    None => {
                        d[u][v] = k + 1;
                        changed = true;
                    }
                }
            }
        }
    }
    changed
}

// The depths before the first round.
fn start_square(states: usize, starts: u16) -> [[u8; 16]; 16]
    requires { states ≤ 16 }
    ensures { Started states starts result }
{
    let mut d = [[0u8; 16]; 16];
    for u in 0..states {
        for v in 0..Coder::STATES {
            if both_start(states, starts, u, v) {
                d[u][v] = ENDLESS;
            }
        }
    }
    d
}

// The first edge of each pair whose first state is one of the states.
fn first_edges(last: &[u16; 64], states: usize) -> [[Edge; 16]; 16]
    requires { states ≤ 16 }
    ensures { FirstEdges last.now states result }
{
    let mut edges = [[Edge { x: 0, y: 0 }; 16]; 16];
    for u in 0..states {
        for v in 0..Coder::STATES {
            edges[u][v] = Edge {
                x: last[u],
                y: last[v],
            };
        }
    }
    edges
}

// The depths in the direction of these near and far ends, in rounds until one changes nothing. For each pair that stands `edges` has the
// edge that keeps it standing.
fn along<'a>(c: &'a Coder, near: &'a [u8; 256], far: &'a [u8; 256], starts: u16) -> [[u8; 16]; 16]
    requires { AlongAsked c.now near.now far.now }
    ensures { (d : Direction) → near.now ≡ near_ends d c.now → far.now ≡ far_ends d c.now → Depths (machine_of_coder c.now) (StartIn c.now.states starts) d result }
{
    let chain = by_key(near, c.states, c.inputs);
    let mut edges = first_edges(&chain.last, c.states);
    let mut d = start_square(c.states, starts);
    let mut k: u8 = 0;
    // A while loop: a round says whether there is another.
    while round(c, &chain, far, &mut d, &mut edges, k) {
        k += 1;
    }
    d
}

// The depths back.
pub fn back(c: &Coder, starts: u16) -> [[u8; 16]; 16]
    requires { Sound c.now }
    ensures { Depths (machine_of_coder c.now) (StartIn c.now.states starts) backward result }
{
    along(c, &c.next, &place_states(), starts)
}

// The depths forward.
pub fn forward(c: &Coder, starts: u16) -> [[u8; 16]; 16]
    requires { Sound c.now }
    ensures { Depths (machine_of_coder c.now) (StartIn c.now.states starts) onward result }
{
    along(c, &place_states(), &c.next, starts)
}
