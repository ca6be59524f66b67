// Sorting.
#![tactic(auto)]

pub mod sorted;
