// The room when a walk starts and when all is said: the tables of rules and candidates, the root place, all words cleared (document 01, "When a strip fits", "What comes back").
#![tactic(auto)]

mod start;
mod table;

pub use start::{clear, fill_tables, first_place};
pub use table::may_use;
