//! The scripts of posters and collectors, as texts that `assemble` takes.
#![tactic(auto)]

mod texts;

pub use texts::{collect_text, post_text};
