//! Images of volumes, read and written.
#![tactic(auto)]

mod body;
mod fault;
mod head;
mod images;
mod laws;
mod parts;
mod reading;
mod records;
mod writing;

pub use fault::VolumeError;
pub use images::Image;
pub use laws::{fault_laws, image_laws, volume_laws};
pub use reading::read_volume;
pub use records::{SegRecord, Volume};
pub use writing::write_volume;
