// The decoder table, filled letter by letter, on the tables of a checked coder.
#![tactic(auto)]

pub mod inner; // inner.rt: what the crates above call; no public calls
