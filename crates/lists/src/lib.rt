// The table that a task is kept in: filled entry by entry, asked as a task source is.
#![tactic(auto)]

pub mod lookup;
pub mod table;
