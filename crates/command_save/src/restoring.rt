//! The command `restore`.

ghost use Rattle.std.specs.Prelude.{◌↔◌, ◌≤◌};
ghost use Rattle.command_input.specs.Answer.{PortsShow};
ghost use Rattle.command_save.specs.Disks.{Stays, sight};
ghost use Rattle.command_save.specs.Read.{OnlyPort1Pushed};
ghost use Rattle.command_save.specs.Shows.{RestoreShows};

use crate::disk::kept_image;
use crate::image::rewritten;
use command_input::{PortFault, Status, config_at};
use host_ports::{Host, push_whole};
use safe_save::Disk;
use std::alloc::Global;

/// The port that the kept volume is pushed to.
const VOLUME_PORT: u8 = 1;

/// Pushes the volume that the disk keeps to port 1, spelled in format 2. It is one of the table of the configuration at port 0.
///
/// Where the disk keeps none, it answers Store with length 0, and where the half in use begins with a length above 4,194,304,
/// Store with that length. Where what is kept is no volume of the table, it answers Volume with port 5. NoMemory comes before the
/// first push. At HostFault Write port 1 has taken a proper prefix.
pub fn restore<H: Host, D: Disk>(alloc: Global, host: &mut H, disk: &mut D) -> Status
    // What each answer says of what was read, of the disk and of port 1.
    ensures shows { RestoreShows (sight D.honest D.seen D.may_leave D.moment D.left_since D.faults) (H.ports host.old) (H.ports host.new) disk.old disk.new result }
    // With every answer nothing was pushed but to port 1, and no port but 0 and 1 has changed.
    ensures pushed { OnlyPort1Pushed (H.ports host.old) (H.ports host.new) }
    ensures ports { PortsShow (H.ports host.old) (H.ports host.new) result }
    // With every answer what a read of an honest disk gives is as it was.
    ensures stays { D.honest disk.old → Stays (sight D.honest D.seen D.may_leave D.moment D.left_since D.faults) disk.old disk.new }
    ensures honest { D.honest disk.old ↔ D.honest disk.new }
    ensures later { D.faults disk.old ≤ D.faults disk.new }
{
    let config = match config_at(alloc, host) {
        Ok(config) => config,
        Err(status) => return status,
    };
    let image = match kept_image(alloc, disk) {
        Ok(image) => image,
        Err(status) => return status,
    };
    let bytes = match rewritten(alloc, image.as_slice(), &config.table) {
        Ok(bytes) => bytes,
        Err(status) => return status,
    };
    match push_whole(host, VOLUME_PORT, bytes.as_slice()) {
        Ok(()) => Status::Done,
        Err(_) => Status::HostFault(PortFault::Write { port: VOLUME_PORT }),
    }
}
