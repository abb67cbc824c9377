// The refusals of the decoder's three calls, and the sizes that they go by. No public calls.
#![tactic(auto)]

pub mod inner; // inner.rt: what the decoder calls
