// Papers: planning tasks in records of sizes, values and actions.
#![tactic(auto)]

pub mod form;
pub mod laws;
pub mod paper;
