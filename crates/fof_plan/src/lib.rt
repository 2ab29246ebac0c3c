// What a due does with the sign ahead (document 02, One), as a plan: what is written, what is due then, and whether the sign is taken.
#![tactic(auto)]

mod chain;
mod plan;

pub use plan::{Plan, Writes, plan_for};
