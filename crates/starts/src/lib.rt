// The start states of a coder for a settle count: where so many letters lead from the states that some string of input letters reaches
// from state 0.
#![tactic(auto)]

pub mod inner; // inner.rt: what the crates above call; no public calls
