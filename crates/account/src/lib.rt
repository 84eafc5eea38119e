// An account of a task for a person: its counts, and the level of every fact.
#![tactic(auto)]

pub mod account;
pub mod building;
