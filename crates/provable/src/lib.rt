// Whether a goal has a proof within a height, yes or no (document 01, "Which strip the search writes").
#![tactic(auto)]

mod provable;

pub use provable::{find_clause, prove_goal, prove_some, through, through_with, use_clause};
