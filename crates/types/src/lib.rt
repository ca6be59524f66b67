// Literals, what fits where, casts, sizes and operators: Krc's converter/types.rs on records of a tree. A type is the number of its record;
// in a judged tree no two types are equal, so types are equal where their numbers are.
#![tactic(auto)]

pub mod casts;
pub mod fits;
pub mod float_value;
pub mod form;
pub mod int_value;
pub mod operators;
pub mod size;
