//! The commands `save` and `restore`: a volume is kept on a disk, so that a crash at any moment leaves the old one or the new one
//! whole, and is given back.
#![tactic(auto)]

mod disk;
mod image;
mod input;
mod restoring;
mod saving;

pub use restoring::restore;
pub use saving::save;
