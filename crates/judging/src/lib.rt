// What is judged of a planning task, over any source of it: whether the goal is in reach, whether a fact is a landmark, which
// achiever lacks a condition, where a sitting leads, and how much is left of it.
#![tactic(auto)]

pub mod achievers;
pub mod fact_set;
pub mod goals;
pub mod measures;
pub mod position;
pub mod sitting;
