// No public calls: what the library's own crates call on checked bytes and on tables. Some of these have a `requires`.
pub mod bytes; // bytes.rt: a test of letters
pub mod big_endian; // big_endian.rt: a number written as bytes
pub mod file; // file.rt: the part of a file that holds the entries
pub mod tables; // tables.rt: Coder, its limits, its tables
