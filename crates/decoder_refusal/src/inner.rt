// No public calls: the refusals of one window, of a string and of a table.
pub mod refusal; // refusal.rt: the refusals of the three calls
pub mod sizes; // sizes.rt: the letters of a window, and the places of a string
