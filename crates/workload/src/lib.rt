//! A large configuration for each number.
#![tactic(auto)]

mod building;
mod classes;
mod processes;
mod scripts;

pub use building::{large, large_law};
