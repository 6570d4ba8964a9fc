//! The top calls.
#![tactic(auto)]

mod plans;
mod store;
mod threads;
mod top;

pub use store::{save_main, store_main};
pub use threads::kernel_main;
pub use top::sim_main;
