// Frames in which some variables are not set yet: whether a head may still be an atom, which candidate the atom forces on a variable, and which variables of the two stand beside each other (document 02, Three).
#![tactic(auto)]

mod beside;
mod head;

pub use beside::same_as;
pub use head::{candidate_at, compare, forced_by, is_variable, may_be, open_at};

// What an atom forces on a variable: nothing, a candidate, or more than any candidate can give.
// Kept: three answers, one of them with a value; an Option in an Option would not say which None is meant.
#[derive(Clone, Copy)]
pub enum Forced {
    Nothing,
    Candidate(u32),
    Never,
}

// A term beside another, or a head beside an atom, where variables of the first are not set: it is another whatever they become, it is the same whatever they become, or that is open.
// Kept: three answers without a value, so no Option or Result.
#[derive(Clone, Copy)]
pub enum Likeness {
    Never,
    Open,
    Same,
}
