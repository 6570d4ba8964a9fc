//! What is to be saved.

ghost use Rattle.std.specs.Prelude.{IfOk, IfErr};
ghost use Rattle.command_save.specs.Input.{ImageHad, ImageFails};

use crate::image::stored_bytes;
use command_input::{Status, config_at, volume_at};
use host_ports::Host;
use std::alloc::Global;

/// The port of the volume that is saved.
const VOLUME_PORT: u8 = 1;

/// What is to be written on the disk: the spelling in format 2 of the volume at port 1, of the table of the configuration at port
/// 0, with its length before it. Else the answer why there is no such volume.
pub fn image_at<H: Host>(alloc: Global, host: &mut H) -> Result<Vec<u8>, Status>
    ensures image { IfOk result (λ bytes. ImageHad (H.ports host.old) (H.ports host.new) bytes.items) }
    ensures fault { IfErr result (ImageFails (H.ports host.old) (H.ports host.new)) }
{
    let config = match config_at(alloc, host) {
        Ok(config) => config,
        Err(status) => return Err(status),
    };
    let volume = match volume_at(alloc, host, &config.table, VOLUME_PORT) {
        Ok(volume) => volume,
        Err(status) => return Err(status),
    };
    match stored_bytes(alloc, &volume, &config.table) {
        Ok(bytes) => Ok(bytes),
        Err(_) => Err(Status::NoMemory),
    }
}
