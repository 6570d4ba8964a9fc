//! The command `save`.

ghost use Rattle.std.specs.Prelude.{◌↔◌, ◌≤◌};
ghost use Rattle.command_input.specs.Answer.{PortsShow};
ghost use Rattle.command_input.specs.Input.{NothingPushed};
ghost use Rattle.command_save.specs.Disks.{sight};
ghost use Rattle.command_save.specs.Read.{UntouchedFrom};
ghost use Rattle.command_save.specs.Shows.{SaveShows};

use crate::disk::{answer_of, keep};
use crate::input::image_at;
use command_input::Status;
use host_ports::Host;
use safe_save::Disk;
use std::alloc::Global;

/// Keeps the volume at port 1, of the table of the configuration at port 0, on the disk, spelled in format 2.
///
/// A crash at any moment of the call leaves what the disk kept before or the new volume, whole. NoMemory comes before the first
/// call of the disk. At HostFault Disk a call of the disk failed, and `restore` then gives the old volume or the new one. At Store
/// the half in use begins with a length above 4,194,304, and the disk stays as it was.
pub fn save<H: Host, D: Disk>(alloc: Global, host: &mut H, disk: &mut D) -> Status
    // What each answer says of what was read and of the disk.
    ensures shows { SaveShows (sight D.honest D.seen D.may_leave D.moment D.left_since D.faults) (H.ports host.old) (H.ports host.new) disk.old disk.new result }
    // With every answer nothing was pushed, and no port but 0 and 1 has changed.
    ensures silent { NothingPushed (H.ports host.old) (H.ports host.new) }
    ensures others { UntouchedFrom 2 (H.ports host.old) (H.ports host.new) }
    ensures ports { PortsShow (H.ports host.old) (H.ports host.new) result }
    // An honest disk stays honest, and the count of its failed calls doesn't fall.
    ensures honest { D.honest disk.old ↔ D.honest disk.new }
    ensures later { D.faults disk.old ≤ D.faults disk.new }
{
    let bytes = match image_at(alloc, host) {
        Ok(bytes) => bytes,
        Err(status) => return status,
    };
    match keep(disk, bytes.as_slice()) {
        Ok(()) => Status::Done,
        Err(error) => answer_of(error),
    }
}
