//! Tests alone: the text of a large configuration, and what the command `large` pushes.
#![tactic(auto)]

#[cfg(test)]
mod seven;
#[cfg(test)]
mod summaries;
#[cfg(test)]
mod texts;
