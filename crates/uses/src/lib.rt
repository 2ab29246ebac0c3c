// The use of a clause, judged at its own place: the clause at hand, the path into it, the atom at its end (document 01, "When a strip fits").
#![tactic(auto)]

mod uses;

use room::Where;
pub use uses::enter_use;

// What a node that fits says at its own place: it ends before an offset; or its part or parts begin at an offset, at these places.
#[derive(Clone, Copy)]
pub enum Entered {
    Leaf(usize),
    One(usize, Where),
    Two(usize, Where, Where),
}

// What a node that fits comes to with all its parts: the offset that it ends before, its height and its number of nodes.
#[derive(Clone, Copy)]
pub struct Fit {
    pub next: usize,
    pub height: usize,
    pub nodes: usize,
}
