// No public calls: what the library's own crates call on checked bytes and on tables. Some of these have a `requires`.
pub mod checked; // checked.rt: the three calls once they are known not to be refused
pub mod places; // places.rt: a string, place by place
pub mod calls; // calls.rt: the three calls, where other buffers may be lent besides their own
