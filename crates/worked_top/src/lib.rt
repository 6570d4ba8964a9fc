//! Tests alone: what the hosts move, the plans of words, what the top call answers and pushes, and the texts of its answers.
#![tactic(auto)]

#[cfg(test)]
mod answers;
#[cfg(test)]
mod configurations;
#[cfg(test)]
mod hosts;
#[cfg(test)]
mod plans;
#[cfg(test)]
mod runs;
#[cfg(test)]
mod texts;
#[cfg(test)]
mod volumes;
