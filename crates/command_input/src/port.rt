//! The bytes of a port.

ghost use Rattle.std.specs.Prelude.{◌≡◌, ◌<◌, ◌+◌, IfOk, IfErr, vec_len};
ghost use Rattle.command_input.specs.Input as spec;
ghost use Rattle.command_input.specs.Reading.{ReadsIn, ReadFails};

use crate::status::{PortFault, Refusal, Status};
use host_ports::{Host, pull_whole};
use std::alloc::{AllocError, Global};

/// The most bytes of a configuration.
const CONFIG_LIMIT: usize = 1_048_576;

/// The most bytes of a volume.
const VOLUME_LIMIT: usize = 4_194_304;

/// The most bytes that a port may have.
fn limit(port: u8) -> usize
    ensures { result ≡ spec.limit port }
{
    match port {
        0 => CONFIG_LIMIT,
        _ => VOLUME_LIMIT,
    }
}

/// Room for so many bytes and one more.
fn blank_buffer(alloc: Global, most: usize) -> Result<Vec<u8>, AllocError>
    requires { most < 4194305 }
    ensures { IfOk result (λ v. vec_len v ≡ most + 1) }
{
    let mut buffer = Vec::new(alloc);
    buffer.resize(most + 1, 0u8)?;
    Ok(buffer)
}

/// All bytes that the port has left, or the answer where there is a fault, too many of them, or no memory for them.
pub fn read_port<H: Host>(alloc: Global, host: &mut H, port: u8) -> Result<Vec<u8>, Status>
    requires { port < 5 }
    ensures bytes { IfOk result (λ bytes. ReadsIn port (H.ports host.old) (H.ports host.new) bytes.items) }
    ensures fault { IfErr result (ReadFails port (H.ports host.old) (H.ports host.new)) }
{
    let Ok(mut buffer) = blank_buffer(alloc, limit(port)) else {
        return Err(Status::NoMemory);
    };
    let Ok(count) = pull_whole(host, port, buffer.as_mut_slice()) else {
        return Err(Status::HostFault(PortFault::Read { port }));
    };
    if count > limit(port) {
        return Err(Status::Refused(Refusal::TooLong { port }));
    }
    buffer.truncate(count);
    Ok(buffer)
}
