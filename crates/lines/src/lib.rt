// The lines of a printed key, printed or written into a buffer.
#![tactic(auto)]

pub mod display;
pub mod line;
mod short_text;
pub mod write;
