// Text in a lent buffer: numbers in decimal, alone, behind a word or padded, and spaces to a column. No public calls.
#![tactic(auto)]

pub mod inner; // inner.rt: what is written from a place of the buffer on
