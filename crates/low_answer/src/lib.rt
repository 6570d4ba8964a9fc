//! The answer of a command about one class, which runs what is at or below the class and pushes one text to port 0.
#![tactic(auto)]

mod ending;

pub use ending::answer_after;
