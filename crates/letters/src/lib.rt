// The lowest letters of walks along a table of costs, written into a lent buffer.
#![tactic(auto)]

pub mod inner; // inner.rt: what the crates above call; no public calls
