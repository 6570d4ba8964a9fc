//! The new volume, and its push.

ghost use Rattle.std.specs.Prelude.{◌≡◌, ◌<◌, IfOk, IfErr, length};
ghost use Rattle.volume_image.specs.Valid.{IsVolume};
ghost use Rattle.command_guard.specs.Guarded.{IsMade, NotMade, Pushed};

use command_input::{PortFault, Refusal, Status};
use host_ports::{Host, push_whole};
use release_guard::{Order, ReleaseError, release};
use std::alloc::Global;
use volume_image::{Volume, write_volume};

/// The bytes in format 2 of the volume that the order makes, or the answer where there are none: the first release at fault, or
/// no memory.
pub fn made(alloc: Global, order: &Order, volume: &Volume) -> Result<Vec<u8>, Status>
    requires volume { IsVolume order.now.table volume.now }
    requires export { order.now.export < length order.now.table }
    ensures bytes { IfOk result (λ bytes. IsMade order.now volume.now bytes.items) }
    ensures fault { IfErr result (NotMade order.now volume.now) }
{
    let new_volume = match release(alloc, order, volume) {
        Ok(new_volume) => new_volume,
        Err(ReleaseError::Fault { line, code }) => {
            return Err(Status::Refused(Refusal::Release { line, code }));
        }
        Err(ReleaseError::NoMemory) => return Err(Status::NoMemory),
    };
    match write_volume(alloc, &new_volume, &order.table) {
        Ok(bytes) => Ok(bytes),
        Err(_) => Err(Status::NoMemory),
    }
}

/// Pushes the bytes to port 1.
pub fn push_volume<H: Host>(host: &mut H, bytes: &[u8]) -> Status
    ensures { Pushed bytes.now (H.ports host.old) (H.ports host.new) result }
{
    match push_whole(host, 1, bytes) {
        Ok(()) => Status::Done,
        Err(_) => Status::HostFault(PortFault::Write { port: 1 }),
    }
}
