//! Words that threads share, each thread by a seat, under the rule that all operations stand in one order.
#![tactic(auto)]

mod plays;
mod seats;
mod shared;
mod view;

pub use seats::{SeatPort, Seats, WholeSeat};
pub use shared::{SharedWords, close};
pub use view::{Entry, View};
