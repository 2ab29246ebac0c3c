// Whether a clause has a head with an atom's predicate: the same name and as many arguments (document 02, Three).
#![tactic(auto)]

mod predicate;

pub use predicate::has_head;
