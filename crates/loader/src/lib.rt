//! The machine in memory at the opening of a configuration.
#![tactic(auto)]

mod judging;
mod laws;
mod loading;
mod model;
mod naming;
mod opening;
mod processors;
mod record_tests;
mod seeing;
mod shared;
mod storing;

pub use judging::{RecordFault, first_fault};
pub use laws::{valid_law, volumes_law};
pub use loading::{LoadError, load_state, load_state_low};
pub use model::model_state;
pub use naming::names_volume;
pub use opening::opening_machine;
