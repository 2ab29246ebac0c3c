// One node of a strip judged at its own place (document 01, "When a strip fits").
#![tactic(auto)]

mod enter;

pub use enter::{
    enter_all, enter_and, enter_imp, enter_left, enter_right, enter_some, enter_top, rank,
};
