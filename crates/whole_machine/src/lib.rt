//! The machine of whole instructions as a plain program on lists.
#![tactic(auto)]

mod asking;
mod bank;
mod building;
mod cell;
mod cells;
mod counts;
mod effects;
mod filling;
mod keyed;
mod looks;
mod name;
mod part;
mod pools;
mod processes;
mod readers;
mod records;
mod section;
mod segments;
mod state;
mod step;
mod tally;
mod text;

pub use building::building_law;
pub use name::ProcName;
pub use section::model_section;
pub use state::{ModelState, model_step};
