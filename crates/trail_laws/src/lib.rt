//! The order of effect of a list of events, written down while the machine runs.
#![tactic(auto)]

mod naming;
mod running;

pub use running::trail;
