// The setting of a coder as data: whether states are among the start states of a word, and the conflicts of its input letters as words; and
// the members of a word.
#![tactic(auto)]

pub mod inner; // inner.rt: what the crates above call; no public calls
