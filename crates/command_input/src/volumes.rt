//! The volumes at the ports.

ghost use Rattle.std.specs.Prelude.{◌<◌, IfOk, IfErr};
ghost use Rattle.command_input.specs.Reading.{VolumeReads, VolumeFails, VolumesRead, VolumesFail};

use crate::port::read_port;
use crate::status::{Refusal, Status};
use config_text::Config;
use host_ports::Host;
use labels::ClassTable;
use loader::names_volume;
use std::alloc::Global;
use volume_image::{Volume, VolumeError, read_volume};

/// The numbers of volumes, and of their ports, are below this.
const PORTS: u8 = 5;

/// The volume of the table that the bytes left at the port spell, or the answer where there is none: a failed pull, more bytes than
/// the port's limit, the first fault, or no memory.
pub fn volume_at<H: Host>(
    alloc: Global,
    host: &mut H,
    table: &ClassTable,
    port: u8,
) -> Result<Volume, Status>
    requires { port < 5 }
    ensures volume { IfOk result (λ v. VolumeReads table.now port (H.ports host.old) (H.ports host.new) v) }
    ensures fault { IfErr result (VolumeFails table.now port (H.ports host.old) (H.ports host.new)) }
{
    let bytes = read_port(alloc, host, port)?;
    match read_volume(alloc, bytes.as_slice(), table) {
        Ok(volume) => Ok(volume),
        Err(VolumeError::Fault { offset, code }) => Err(Status::Refused(Refusal::Volume {
            port,
            offset,
            code,
        })),
        Err(VolumeError::NoMemory) => Err(Status::NoMemory),
    }
}

/// The volumes that the configuration names, each read whole before the next, or the answer why they can't be had.
pub fn read_volumes<H: Host>(
    alloc: Global,
    host: &mut H,
    config: &Config,
) -> Result<Vec<(u8, Volume)>, Status>
    ensures volumes { IfOk result (λ vs. VolumesRead 5 config.now (H.ports host.old) (H.ports host.new) vs.items) }
    ensures fault { IfErr result (VolumesFail config.now (H.ports host.old) (H.ports host.new)) }
{
    let mut volumes = Vec::new(alloc);
    for port in 1..PORTS {
        if names_volume(config, port) {
            let volume = match volume_at(alloc, host, &config.table, port) {
                Ok(volume) => volume,
                Err(status) => return Err(status),
            };
            match volumes.push((port, volume)) {
                Ok(()) => {}
                Err(_) => return Err(Status::NoMemory),
            }
        }
    }
    Ok(volumes)
}
