// Whether two atoms or two terms are equal under their bindings (document 01, "When a strip fits").
#![tactic(auto)]

mod equal;

pub use equal::{same_atoms, same_terms};
