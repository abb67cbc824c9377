// No public calls: the letters that fit a window, by sets of states. A set is a word of 16 bits. Some of these have a `requires`.
pub mod tables; // tables.rt: the successors of a state and its letters, by output letter
pub mod sets; // sets.rt: the states that follow a set of states
pub mod answer; // answer.rt: the answer that a set of letters stands for
pub mod window; // window.rt: the letters that fit a window, and how far it was possible
