//! The laws of effect: the machine of words does what the machine of whole instructions does, in the order of effect.
#![tactic(auto)]

mod laws;

pub use laws::{effect_laws, gate_laws, section_laws};
