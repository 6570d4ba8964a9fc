//! The command `guard`.

ghost use Rattle.command_guard.specs.Shown.{GuardShows};

use crate::order::order_at;
use crate::output::{made, push_volume};
use command_input::{Status, volume_at};
use host_ports::Host;
use std::alloc::Global;

/// Carries out the release order at port 0 on the volume at port 1, and pushes the new volume, in format 2, to port 1. The
/// order is read and judged before the volume is pulled. Nothing is pushed by a refusal. NoMemory comes before the first push.
pub fn guard<H: Host>(alloc: Global, host: &mut H) -> Status
    ensures { GuardShows (H.ports host.old) (H.ports host.new) result }
{
    let order = match order_at(alloc, host) {
        Ok(order) => order,
        Err(status) => return status,
    };
    let volume = match volume_at(alloc, host, &order.table, 1) {
        Ok(volume) => volume,
        Err(status) => return status,
    };
    match made(alloc, &order, &volume) {
        Ok(bytes) => push_volume(host, bytes.as_slice()),
        Err(status) => status,
    }
}
