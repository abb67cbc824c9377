// The letters that fit a window: the decoder's core, on the tables of a checked coder.
#![tactic(auto)]

pub mod inner; // inner.rt: what the crates above call; no public calls

// What the letters of one window stand for: the letter that alone fits; none, with how many letters from the first on some run can produce;
// or several.
#[derive(Clone, Copy)]
pub enum Answer {
    Letter(u8),
    None(usize),
    Several,
}
