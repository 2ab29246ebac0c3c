// From a place to the places of its parts (document 01, "When a strip fits").
#![tactic(auto)]

mod moves;

pub use moves::{bound, further, past_part, plus, supposes, within, word_there};
