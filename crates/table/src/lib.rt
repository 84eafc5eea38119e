// A table that holds a copy of any task, for quick answers.
#![tactic(auto)]

pub mod action;
pub mod copying;
pub mod source;
pub mod task_table;
pub mod variable;
