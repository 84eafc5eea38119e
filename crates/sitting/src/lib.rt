// The text of a sitting: a request in each line that is read, and the text of an answer.
#![tactic(auto)]

pub mod answers;
mod numbers;
pub mod parsing;
pub mod requests;
mod words;
