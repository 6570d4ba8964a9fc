//! Tests alone: worked scripts, configurations and images of volumes, with the first fault of each that isn't read.
#![tactic(auto)]

#[cfg(test)]
mod configurations;
#[cfg(test)]
mod scripts;
#[cfg(test)]
mod volumes;
