// One number for each atom and each rule, so that a rule that cannot match is not visited (document 02, Three). Of a number nothing is believed but that different numbers are of different atoms.
#![tactic(auto)]

mod atom;
mod chain;
mod mix;
mod next;
mod rule;
mod table;
mod term;

pub use atom::{Both, both_keys, predicate_key};
pub use next::{next_candidate, next_clause};
pub use rule::rule_key;
pub use table::fill_keys;
pub use term::term_key;
