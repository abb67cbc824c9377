// No public calls: the two runs of a looped pair.
pub mod follow; // follow.rt: the two runs of a pair on the tables
