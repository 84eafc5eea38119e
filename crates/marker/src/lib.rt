// A marker over any source of a planning task: it keeps a key and a sitting, and answers each call as the rules say.
#![tactic(auto)]

pub mod markers;
mod orderings;
