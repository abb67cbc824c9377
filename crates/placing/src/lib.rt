// Bytes in a lent buffer, from a place of it on. No public calls.
#![tactic(auto)]

pub mod inner; // inner.rt: bytes of a slice, and one byte many times
