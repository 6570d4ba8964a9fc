//! The command `large`: a run of the large configuration of a number, and what each class comes to.
#![tactic(auto)]

mod summing;

pub use summing::large;
