//! Worked runs of the two machines, one small case each. The laws here are proved by computation: they show that the definitions say what
//! was meant, and are no theorems over all runs.
#![tactic(auto)]

pub mod cases;
pub mod counting;
pub mod granting;
pub mod looks;
pub mod refusing;
