//! What the report shows of a class.
#![tactic(auto)]

mod laws;

pub use laws::shown_laws;
