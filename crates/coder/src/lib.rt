// The coder: its file, its limits and its tables; and why a call is refused. No public calls.
#![tactic(auto)]

pub mod refusal; // refusal.rt: why a call is refused
pub mod inner; // inner.rt: what the crates above call on checked bytes
