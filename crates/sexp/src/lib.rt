// Canonical S-expressions (RFC 9804) in bytes: `decimal` reads a length, `text` a string, `carrier` judges a whole file.
// From any offset: `strings` finds the plain string there, `skip` goes past the expression there, and `words` knows words, names and numbers.
#![tactic(auto)]

mod carrier;
mod decimal;
mod skip;
mod strings;
mod text;
mod words;

pub use carrier::{Carrier, canonical};
pub use skip::past;
pub use strings::{byte, closes, opens, plain};
pub use words::{is_name, is_name_of, is_word, number, number_of, same, same_text};
