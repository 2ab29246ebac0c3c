// TPTP lines of the part become the bytes of rules and a goal, read from left to right without recursion on the text (document 02, One).
#![tactic(auto)]

// Kept: the text, the stack, the names and a buffer are lent side by side and not in a struct, since the buffer is now the rules', now the goal's, and clauses say of each what it holds then.
mod line;
mod lines;

pub use lines::{Passed, pass};
