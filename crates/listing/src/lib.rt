// The lines of a key, one by one: its facts upwards, then its ordered pairs by the earlier and the later fact.
#![tactic(auto)]

pub mod fact;
pub mod find;
pub mod line_at;
pub mod list;
pub mod pair;
pub mod refusal;
