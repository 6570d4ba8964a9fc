//! What the words behind the program's name ask for.
#![tactic(auto)]

mod asked;
mod command;
mod kind;
mod number;
mod words;

pub use asked::{Plan, PlanError};
pub use words::plan;
