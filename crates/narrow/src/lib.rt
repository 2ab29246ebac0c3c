// Which candidates a variable need be tried with, where an atom that it is an argument of can only be served by heads without variables (document 02, Three). The heads of rules are kept in the room.
#![tactic(auto)]

mod facts;
mod kept;
mod marks;
mod rule;
mod table;

pub use facts::{Sought, by_clause};
pub use kept::fill_arguments;
pub use marks::{spend, unmark_all};
pub use table::fill_heads;
