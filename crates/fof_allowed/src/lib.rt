// What is spelt in the part of TPTP that is read is allowed by TPTP's grammar: this crate is law, and has no code.
#![tactic(auto)]
