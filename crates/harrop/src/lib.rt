// What a variable stands for (document 01, "When a strip fits"). Everything else of this crate is definition and law.
#![tactic(auto)]

// A candidate, by its number in the terms file, or an open parameter, by its number.
// Kept: either kind is an answer with a number, and none of them a failure.
#[derive(Clone, Copy)]
pub enum Binding {
    Candidate(u32),
    Parameter(u32),
}
