//! Configurations and their text.
#![tactic(auto)]

mod config;
mod draft;
mod fault;
mod judging;
mod laws;
mod limits;
mod reading;
mod stage;
mod steps;
mod words;

pub use config::{Config, GateLine, Item, Pool, ProcessLine, Script};
pub use fault::ConfigError;
pub use judging::{is_low, stood_before};
pub use laws::config_laws;
pub use reading::read_config;
pub use words::{byte, is_misspelt, label, name_text, value};
