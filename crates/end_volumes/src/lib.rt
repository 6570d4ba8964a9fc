//! The volumes after a run.
#![tactic(auto)]

mod after;
mod after_laws;
mod cells;
mod origins;

pub use after::volume_after;
pub use after_laws::after_law;
