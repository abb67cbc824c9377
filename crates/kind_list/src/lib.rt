// The kind list of a call for kinds, and refusal 16.
#![tactic(auto)]

pub mod inner; // inner.rt: what the crates above call; no public calls
