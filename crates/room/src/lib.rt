// The work room: its words, bindings in frames, the parts of the files that spots name, and supposed clauses (document 01, "When a strip fits", "Sizes").
#![tactic(auto)]

ghost use Rattle.std.specs.Prelude.{◌≡◌};
ghost use Rattle.room.specs.Spot.{moved_to};

mod file;
mod frame;
mod words;

pub use file::{Files, from, suppose, supposed};
pub use frame::{copy, push, variable};
pub use words::{hold, put, put_after, word, word_after};

// Which file a formula or a term stands in.
#[derive(Clone, Copy, PartialEq, Eq)]
pub enum Source {
    Rules,
    Goal,
    Terms,
}

// Where a formula or a term stands: its file and offset, and the frame of the room that its variables are bound in.
#[derive(Clone, Copy, PartialEq, Eq)]
pub struct Spot {
    pub source: Source,
    pub at: usize,
    pub base: usize,
    pub count: usize,
}

impl Spot {
    // A spot of the same formula at another offset.
    pub fn moved(self, at: usize) -> Spot
        ensures { result ≡ moved_to self at }
    {
        Spot { at, ..self }
    }
}

// A place: the spot of its goal, how many clauses are supposed, how many parameters are open, and where the stack ends.
#[derive(Clone, Copy)]
pub struct Where {
    pub goal: Spot,
    pub supposed: usize,
    pub parameters: usize,
    pub top: usize,
}
