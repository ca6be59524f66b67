// The record form of a tree: its words, and what each word of each kind of record is for. The definitions stand in specs/.
#![tactic(auto)]

pub mod chains;
pub mod convert_error;
pub mod layout;
pub mod numbers;
pub mod order;
pub mod samples;
pub mod shape;
pub mod texts;
pub mod words;
