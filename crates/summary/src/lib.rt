//! The summary of a run of the large configuration, counted off the step machine and pushed.
#![tactic(auto)]

mod counting;
mod laws;
mod pushing;
mod sequencers;
mod totals;

pub use laws::summary_law;
pub use pushing::push_summary;
pub use totals::Totals;
