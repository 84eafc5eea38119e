// What a planning task can reach when nothing is ever lost: its layers, and the first layer of each fact.
#![tactic(auto)]

mod conditions;
mod effects;
pub mod layers;
pub mod measure;
pub mod reach;
mod start;
pub mod tables;
