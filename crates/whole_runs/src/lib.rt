//! A run of the step machine that says what it is: a run of the machine of whole instructions, in which each effect shows what it
//! must and each access is allowed.
#![tactic(auto)]

mod running;

pub use running::run_whole;
