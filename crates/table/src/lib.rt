// The table of atoms in what is left of the work room (document 02, Three): failed within a height, or proved within a height and by which clause, believed only after the atoms were compared in full.
#![tactic(auto)]

mod asked;
mod kept;
mod path;
mod slot;
mod words;

pub use asked::{chosen, recall};
pub use kept::{empty_all, forget, keep};
pub use path::{numbers, take};
pub use slot::slot_for;
