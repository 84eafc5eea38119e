// Calls on the key of a small task, with the answers known by hand.
#![tactic(auto)]

pub mod fork;
#[cfg(test)]
mod tests;
