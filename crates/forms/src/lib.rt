// Reads records of any form into a table: the order of kinds, the limits, the order of tests and the reading loop.
#![tactic(auto)]

pub mod document;
pub mod form;
pub mod laws;
pub mod reader;
pub mod rules;
