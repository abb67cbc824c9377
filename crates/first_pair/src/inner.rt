// No public calls: the numbers that costs are made of (specs/Cost.antt).

// A number of letters that no length reaches.
pub const TOO_LONG: usize = 1024;

// What a letter costs.
pub const LETTER_COST: usize = 1048576;

// No cost: that of so many letters.
pub const NO_COST: usize = 1073741824;
