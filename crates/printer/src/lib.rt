// Printing a key.
#![tactic(auto)]

pub mod print;
pub mod program;
