// No public calls: the successors of each pair of states, and the shortest closed walk at each pair. Some of these have a `requires`.
pub mod successors; // successors.rt: the successors of each pair of states
pub mod sets; // sets.rt: sets of pairs along edges
pub mod closed; // closed.rt: the shortest closed walk at each pair
