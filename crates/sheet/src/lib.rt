// Sheets: planning tasks in facts that hold or do not, with adds and deletes.
#![tactic(auto)]

pub mod form;
pub mod laws;
pub mod sheet;
