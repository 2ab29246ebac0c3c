// The table of words by matches (document 01, "The carrier and the words"): what is due after a word, and what follows from what is due.
#![tactic(auto, unfolding(packet::specs::Table::due_after, packet::specs::Table::rows, packet::specs::Table::rank, packet::specs::Table::next, packet::specs::Table::may_end))]

mod table;

pub use table::{due_after, may_end, next_due};
