// The least window that works, in an order, from the depths of the product machine.
#![tactic(auto)]

pub mod inner; // inner.rt: what the crates above call; no public calls
