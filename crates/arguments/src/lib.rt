// The arguments of an atom by the numbers of candidates (document 02, Three: no verdict and no strip changes), so that two atoms are told apart by one word each.
#![tactic(auto)]

mod numbers;
mod word;

pub use numbers::arguments_of;
pub use word::between;
