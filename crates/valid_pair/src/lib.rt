// Whether a looped pair is valid, on the tables of a coder. No public calls.
#![tactic(auto)]

pub mod inner; // inner.rt: what the checker calls
