// Which variables a formula mentions, and which variables of a frame are not set yet (document 02, Three): definitions and laws only.
#![tactic(auto)]
