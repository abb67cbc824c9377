// The successors of each pair of states, and the shortest closed walk at each pair.
#![tactic(auto)]

pub mod inner; // inner.rt: what the crates above call; no public calls
