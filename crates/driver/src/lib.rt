// A key with all that the rules confirm.
#![tactic(auto)]

pub mod filling;
pub mod marked;
