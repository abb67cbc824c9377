// Walks of the product machine with a number of letters, their costs and their lowest letters, and the first looped pair: definitions in
// specs, laws in proofs; of code only the numbers that costs are made of.
#![tactic(auto)]

pub mod inner; // inner.rt: these numbers; no public calls
