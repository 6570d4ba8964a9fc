//! Tests alone: volumes saved and restored on disks in memory, with a crash after each call, and each call of disk and host failing
//! in turn.
#![tactic(auto)]

#[cfg(test)]
mod crashes;
#[cfg(test)]
mod faults;
#[cfg(test)]
mod kept;
#[cfg(test)]
mod runs;
#[cfg(test)]
mod volumes;
