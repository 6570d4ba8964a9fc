//! The trail of the machine of whole instructions: every access and every reply, in the order of effect.
#![tactic(auto)]

mod due;
mod entry;
mod instructions;
mod laws;
mod line;
mod trail;

pub use entry::Entry;
pub use laws::line_law;
pub use trail::audit;
