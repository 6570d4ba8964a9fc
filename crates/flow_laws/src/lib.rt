//! What is at or below a class goes on by what is at or below it alone.
#![tactic(auto)]

mod laws;

pub use laws::flow_laws;
