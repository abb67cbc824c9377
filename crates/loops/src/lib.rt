// The first looped pair, by least costs of walks of the product machine.
#![tactic(auto)]

pub mod inner; // inner.rt: what the crates above call; no public calls
