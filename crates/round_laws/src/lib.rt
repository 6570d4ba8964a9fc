//! The laws of rounds: what processors do side by side, each on a seat of the shared words, is one list of events.
#![tactic(auto)]

mod laws;

pub use laws::round_laws;
