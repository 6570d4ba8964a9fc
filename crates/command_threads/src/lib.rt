//! The command that runs a configuration by processors that are threads.
#![tactic(auto)]

mod command;
mod rounds;
mod teams;

pub use command::run;
pub use rounds::{Left, run_rounds};
