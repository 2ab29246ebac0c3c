// Words and files read from bytes (document 01, "The carrier and the words", "Sizes", "What comes back").
#![tactic(auto)]

mod bars;
mod count;
mod files;
mod shape;
mod words;

pub use files::{Counts, Fault, Refusal, judge_file, read_books, read_file, read_packet};
pub use words::word_at;
