//! Tests alone: images saved on a disk in memory, with a crash after each call, and each call failing in turn, and the disk on a
//! file.
#![tactic(auto)]

#[cfg(test)]
mod disks;
#[cfg(test)]
mod tests;
