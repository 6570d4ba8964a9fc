//! The command `view`: a run of what is at or below one class, and the section of that class alone.
#![tactic(auto)]

mod viewing;

pub use viewing::view;
