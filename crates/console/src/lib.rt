// What the programs share: reading their input, and printing accounts and refusals.
#![tactic(auto)]

pub mod fault;
pub mod input;
pub mod levels;
pub mod output;
