// Records of four bytes, what they can be, and why they are refused.
#![tactic(auto)]

pub mod bytes;
pub mod fault;
pub mod laws;
pub mod record;
pub mod shown;
