// The product machine of a coder: for each pair of states the number of levels at which it stands, back and forward.
#![tactic(auto)]

pub mod inner; // inner.rt: what the crates above call; no public calls
