//! The release guard: an order names words of high segments that are released into lower ones, and what is exported.
#![tactic(auto)]

mod draft;
mod fault;
mod guard;
mod laws;
mod order;
mod parts;
mod reading;
mod records;

pub use fault::{OrderError, ReleaseError};
pub use guard::release;
pub use laws::{flow_law, order_laws};
pub use order::{Order, Release};
pub use reading::read_order;
