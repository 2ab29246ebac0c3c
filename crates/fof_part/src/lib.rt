// How the lines of the part are read from their tokens, and what they are written as: this crate is definition and law, and has no code.
#![tactic(auto)]
