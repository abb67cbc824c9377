// Entries chained by a key: all entries with one output letter, or with one next state, found without looking at the others.
#![tactic(auto)]

pub mod inner; // inner.rt: what the crates above call; no public calls
