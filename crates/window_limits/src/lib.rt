// The numbers that concern a window's sides alone, 8, its settle count alone, 14, and its received letters, 9, 11 and 13. No public calls.
#![tactic(auto)]

pub mod inner; // inner.rt: the two refusals
