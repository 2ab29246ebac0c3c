// What the lines of a TPTP book mean, and how they become rules and a goal: this crate is definition and law, and has no code.
#![tactic(auto)]
