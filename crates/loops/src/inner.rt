// No public calls: the first looped pair. Some of these have a `requires`.
pub mod tables; // tables.rt: the tables of costs, and the starts and lengths of the first pair
pub mod parts; // parts.rt: its letters, part by part
pub mod find; // find.rt: the pair

// What a letter of the lead-in costs, and one of the lead-out; a letter of neither costs `first_pair::inner::LETTER_COST`.
pub const IN_COST: usize = 1049600;

pub const OUT_COST: usize = 1048577;
