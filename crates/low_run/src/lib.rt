//! What is at or below a class: the classes, and the events as a list or taken by a machine.
#![tactic(auto)]

mod classes;
mod picking;
mod running;

pub use classes::LowClasses;
pub use picking::low_events;
pub use running::run_low;
