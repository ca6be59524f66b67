// The emitter: the six tables while converting, and what a function's conversion adds to them. The definitions stand in specs/.
#![tactic(auto)]

pub mod arena;
pub mod counter;
pub mod cut;
pub mod floats;
pub mod lent;
pub mod pool;
pub mod search;
pub mod structs;
