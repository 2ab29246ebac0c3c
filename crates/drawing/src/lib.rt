// The strip as it is drawn: which option is the first, what its nodes are written as, and the laws on both (document 01, "Which strip the search writes").
#![tactic(auto)]

mod first;
mod put;

pub use first::{first_clause, first_with, number_through};
pub use put::{behind, beside, close, cut, nothing, shut, top};

// What is drawn: the height and the nodes of it, and the place after it.
#[derive(Clone, Copy)]
pub struct Drawn {
    pub height: usize,
    pub nodes: usize,
    pub at: usize,
}
