// One formula of a TPTP line, from its first token to its last: what each token does to what is held and written (document 02, One).
#![tactic(auto)]

// Kept: the text, the stack, the names, the buffer and what is read so far stand side by side and not in a struct, since the buffer is another one for rules and for the goal, and the clauses say of each what it holds then.
mod act;
mod run;
mod wide;

pub use act::Now;
pub use run::{formula, formula_short, stopped};

#[cfg(test)]
mod tests;
