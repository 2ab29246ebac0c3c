// What a search answers: the definition for every input, what each answer means, and document 01's cases (document 01, "Which strip the search writes", "What comes back").
#![tactic(auto)]

use packet::{File, Reason};

// What a search answers: the height, nodes and length in bytes of the strip written, or why there is none, with the file and a place.
// Kept: the theorems on `proposal_of` that docs/DEMANDS.md names say these two words.
#[derive(Clone, Copy)]
pub enum Proposal {
    Found {
        height: usize,
        nodes: usize,
        length: usize,
    },
    Refused {
        reason: Reason,
        file: File,
        place: usize,
    },
}
