// The functions by key: a function's record read, and the Rust's map, in scratch: a slot for the number of each text, and the functions listed. A
// tree is judged before; a function is the number of its record.
#![tactic(auto)]

pub mod keys;
pub mod parts;
