// The text of a whole key, by an iterator over its lines.
#![tactic(auto)]

pub mod cursor;
pub mod key_lines;
pub mod text;
