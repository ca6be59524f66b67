// Krc's converter/functions.rs: all functions by key, `main`, and a function's parameters, body and entry.
#![tactic(auto)]

pub mod bodies;
pub mod functions;
pub mod parameters;
pub mod returns;
