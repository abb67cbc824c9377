// What the calls are given and give: a window, an order of windows, a looped pair.
#![tactic(auto)]

pub mod inner; // inner.rt: the comparison of two windows; no public calls

// A window: how many letters before the present one and after it, and how many letters, unseen, its runs read ahead of it.
#[derive(Clone, Copy, PartialEq, Eq)]
pub struct Window {
    pub before: usize,
    pub after: usize,
    pub settle: usize,
}

// The order in which a search reports the least window that works: least lookahead and, among those, fewest letters before; or fewest
// letters in all and, among those, least lookahead.
#[derive(Clone, Copy, PartialEq, Eq)]
pub enum Order {
    LeastLookahead,
    FewestLetters,
}

impl Order {
    // The order of a call that names none.
    pub const DEFAULT: Order = Order::LeastLookahead;
}

// Starts and lengths of a looped pair; its letters lie in a lent buffer.
#[derive(Clone, Copy, PartialEq, Eq)]
pub struct LoopedPair {
    pub s: usize,
    pub t: usize,
    pub back_loop: usize,
    pub lead_in: usize,
    pub lead_out: usize,
    pub forward_loop: usize,
}
