// What a reader of TPTP lines that works from left to right is made of (document 02, One): the sign ahead, the stack of what is due, the variables that are bound, and marks in a buffer.
#![tactic(auto)]

mod ahead;
mod dues;
mod expected;
mod ink;
mod names;

pub use ahead::{Ahead, Sign, cut, sign_ahead};
pub use dues::{Due, Sort, due_of, enter, entry, push, push_short};
pub use expected::take;
pub use ink::{Pen, end, head, heads, number, string};
pub use names::number_of;
