//! The order at port 0.

ghost use Rattle.std.specs.Prelude.{IfOk, IfErr};
ghost use Rattle.command_guard.specs.Guarded.{OrderHad, OrderFails};

use command_input::{Refusal, Status, read_port};
use host_ports::Host;
use release_guard::{Order, OrderError, read_order};
use std::alloc::Global;

/// The order that the bytes left at port 0 spell, or the answer where there is none: a failed pull, more than 1,048,576 bytes,
/// the first faulty line, or no memory.
#[tactic(auto, using(crate::proofs::Steps::reading))]
pub fn order_at<H: Host>(alloc: Global, host: &mut H) -> Result<Order, Status>
    ensures order { IfOk result (OrderHad (H.ports host.old) (H.ports host.new)) }
    ensures fault { IfErr result (OrderFails (H.ports host.old) (H.ports host.new)) }
{
    let text = match read_port(alloc, host, 0) {
        Ok(text) => text,
        Err(status) => return Err(status),
    };
    match read_order(alloc, text.as_slice()) {
        Ok(order) => Ok(order),
        Err(OrderError::Fault { line, code }) => {
            Err(Status::Refused(Refusal::Release { line, code }))
        }
        Err(OrderError::NoMemory) => Err(Status::NoMemory),
    }
}
