// Grammars as data, and the machine that reads by them: this crate is definition and law, and has no code.
#![tactic(auto)]
