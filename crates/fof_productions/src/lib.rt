// TPTP's productions of `fof` lines, and what they derive (document 02, One). There is no code here.
#![tactic(auto)]
