// Which variables of a frame a formula or a term holds, on the bytes: those with a number, and those that are not set yet (document 02, Three).
#![tactic(auto)]

mod variables;

pub use variables::{Met, holds, is_open, meets};
