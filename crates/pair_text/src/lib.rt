// The lines on a coder without a decoder, with the looped pair that excludes every window. No public calls.
#![tactic(auto)]

pub mod inner; // inner.rt: each line, written from a place of the buffer on
