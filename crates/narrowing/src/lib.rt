// Which candidates a variable need be tried with, by the goals of a body, through the bodies of rules (document 02, Three: no verdict and no strip changes).
#![tactic(auto)]

mod setting;
mod tried;

pub use tried::{is_left_out, narrow_body};
