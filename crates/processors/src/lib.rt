//! Processors as threads: each takes its steps on a seat of the shared words, round after round.
#![tactic(auto)]

mod pace;
mod parts;
mod processor;
mod quanta;
mod running;
mod team;

pub use pace::{NoPace, Pace};
pub use parts::{Parts, Rounds};
pub use processor::Processor;
pub use running::rounds;
pub use team::Team;
