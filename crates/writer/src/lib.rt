// The first strip at a place that has a proof, drawn into a buffer (document 01, "Which strip the search writes").
#![tactic(auto)]

mod write;

pub use write::write_goal;
