// What it is for a search to be right of a goal, a clause and its frame, the laws on it, and the parts of a clause on the bytes (document 01, "Which strip the search writes"; document 02, Three).
#![tactic(auto)]

mod matching;
mod opening;
mod plain;

pub use matching::meet;
pub use opening::{candidates, clauses, deeper, is_fact, open_clause, rule_number};
pub use plain::{
    Parts, body_place, chain_of, clause_parts, fits, is_plain, may_fit, parts_of, unset_all,
    word_of,
};
