//! The trail of what is at or below a class, and how it is printed.
#![tactic(auto)]

mod push;
mod running;

pub use push::push_lines;
pub use running::{LowTrail, trail_of_low};
