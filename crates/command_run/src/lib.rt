//! What a run prints, whichever order of word steps it had: the report, and then the volumes where no process is live. The commands
//! `sim` and `show`.
#![tactic(auto)]

mod ending;
mod images;
mod output;
mod sections;
mod showing;
mod simulation;

pub use ending::{finish, load_answer};
pub use output::push_text;
pub use sections::{push_report, some_live};
pub use showing::show;
pub use simulation::sim;
