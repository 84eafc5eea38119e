// The key of a planning task: landmarks and orderings that were proposed and confirmed, and a sitting that is followed action by
// action. Every answer is that of the rules, and no plan is ever marked down.
#![tactic(auto)]

pub mod keys;
pub mod replay;
