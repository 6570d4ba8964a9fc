//! The command `guard`: an order releases words of a volume into lower segments, and what lies at or below one class is exported.
#![tactic(auto)]

mod guarding;
mod order;
mod output;

pub use guarding::guard;
