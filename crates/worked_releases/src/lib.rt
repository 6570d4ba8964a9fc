//! Tests alone: worked release orders with their faults, and what `guard` makes of volumes.
#![tactic(auto)]

#[cfg(test)]
mod guarding;
#[cfg(test)]
mod orders;
