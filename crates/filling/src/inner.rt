// No public calls: the decoder table, filled letter by letter. Some of these have a `requires`.
pub mod sets; // sets.rt: a set of letters for each state, one received letter after the other
pub mod table; // table.rt: the decoder table
