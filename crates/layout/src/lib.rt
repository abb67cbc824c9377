// The calls from C: the fields of the result buffer, which docs/c-interface.md describes, and a result laid into them. No public calls.
#![tactic(auto)]

pub mod inner; // inner.rt: the fields of the result buffer
