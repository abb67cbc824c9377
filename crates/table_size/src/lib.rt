// The size of a decoder table. No public calls.
#![tactic(auto)]

pub mod inner; // inner.rt: which tables are allowed, by cases on O, and how many bytes a table has
