//! What a command reads, and what it answers: the configuration at port 0 and the volumes that it names, each within its limit,
//! or why they can't be had.
#![tactic(auto)]

mod config;
mod input;
mod port;
mod status;
mod text;
mod volumes;

pub use config::config_at;
pub use input::{Input, read_input};
pub use port::read_port;
pub use status::{PortFault, Refusal, Status};
pub use volumes::{read_volumes, volume_at};
