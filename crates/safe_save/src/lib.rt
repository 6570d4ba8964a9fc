//! Saving that no crash can break: what a disk may do, and an image kept on it.
#![tactic(auto)]

mod disk;
mod file;
mod fill;
mod keeping;
mod memory;
mod record;

pub use disk::Disk;
pub use file::FileDisk;
pub use fill::Fill;
pub use keeping::{Place, SaveError, load, open, save};
pub use memory::MemoryDisk;
