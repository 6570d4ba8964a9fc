//! The command `audit`: a run of what is at or below one class, and the trail of it, every access and every reply.
#![tactic(auto)]

mod auditing;

pub use auditing::audit;
