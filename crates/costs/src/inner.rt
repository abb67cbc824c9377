// No public calls: least costs of walks, in a table of 256 places, that of the pair (u, v) at 16 u + v. Some of these have a `requires`.
pub mod lowering; // lowering.rt: least costs in a table, pair by pair, until none falls
pub mod marked; // marked.rt: the costs of conflicting edges
pub mod starts; // starts.rt: the first pair with fewest letters
