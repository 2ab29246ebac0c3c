// The walk down a strip: each node judged at its own place, then its parts at theirs (document 01, "When a strip fits").
#![tactic(auto)]

mod down;

pub use down::node;
