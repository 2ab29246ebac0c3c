// Figure 1 of document 004: this crate is definition and law, and has no code.
#![tactic(auto)]
