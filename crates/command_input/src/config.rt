//! The configuration at port 0.

ghost use Rattle.std.specs.Prelude.{IfOk, IfErr};
ghost use Rattle.command_input.specs.Answer.{ConfigFails};
ghost use Rattle.command_input.specs.Input.{ConfigHad};

use crate::port::read_port;
use crate::status::{Refusal, Status};
use config_text::{Config, ConfigError, read_config};
use host_ports::Host;
use std::alloc::Global;

/// The configuration that the bytes left at port 0 spell, or the answer where there is none: a failed pull, more than 1,048,576
/// bytes, the first faulty line, or no memory.
pub fn config_at<H: Host>(alloc: Global, host: &mut H) -> Result<Config, Status>
    ensures config { IfOk result (ConfigHad (H.ports host.old) (H.ports host.new)) }
    ensures fault { IfErr result (ConfigFails (H.ports host.old) (H.ports host.new)) }
{
    let text = match read_port(alloc, host, 0) {
        Ok(text) => text,
        Err(status) => return Err(status),
    };
    match read_config(alloc, text.as_slice()) {
        Ok(config) => Ok(config),
        Err(ConfigError::Fault { line, code }) => {
            Err(Status::Refused(Refusal::Config { line, code }))
        }
        Err(ConfigError::NoMemory) => Err(Status::NoMemory),
    }
}
