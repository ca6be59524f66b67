// Typing and call resolution: Krc's converter/expressions.rs. A tree is judged before; a type, an expression and a function are numbers of
// their records.
#![tactic(auto)]

pub mod answers;
pub mod arguments;
mod calls;
mod exact;
pub mod expressions;
pub mod names;
mod operands;
mod takes;
pub mod turns;
