//! The whole input of a command.

ghost use Rattle.std.specs.Prelude.{IfOk, IfErr};
ghost use Rattle.command_input.specs.Answer.{InputFails};
ghost use Rattle.command_input.specs.Input.{InputHad, IsAmong};
ghost use Rattle.command_input.specs.Reading.{IsNoClass};

use crate::config::config_at;
use crate::status::{Refusal, Status};
use crate::volumes::read_volumes;
use config_text::Config;
use host_ports::Host;
use std::alloc::Global;
use volume_image::Volume;

/// A configuration with the volumes that it names, each with its number, in ascending order.
#[derive(Drop)]
pub struct Input {
    pub config: Config,
    pub volumes: Vec<(u8, Volume)>,
}

/// Nothing, where the class that is asked for is one of the configuration's or none is asked for, or else the refusal.
fn check_class(class: Option<u8>, config: &Config) -> Result<(), Status>
    ensures among { IfOk result (λ x. IsAmong class config.now) }
    ensures refused { IfErr result (IsNoClass class config.now) }
{
    let classes = config.table.count();
    match class {
        Some(given) if given >= classes => {
            Err(Status::Refused(Refusal::Class { given, classes }))
        }
        _ => Ok(()),
    }
}

/// The configuration at port 0, and then the volumes that it names, each read whole from its port before the next. Where the
/// command asks for a class, it has to be a class of the configuration; that is tested before any volume is read. Else the answer
/// why there is no input.
pub fn read_input<H: Host>(alloc: Global, host: &mut H, class: Option<u8>) -> Result<Input, Status>
    ensures input { IfOk result (λ input. InputHad class (H.ports host.old) (H.ports host.new) input.config input.volumes.items) }
    ensures fault { IfErr result (InputFails class (H.ports host.old) (H.ports host.new)) }
{
    let config = match config_at(alloc, host) {
        Ok(config) => config,
        Err(status) => return Err(status),
    };
    match check_class(class, &config) {
        Ok(()) => {}
        Err(status) => return Err(status),
    }
    match read_volumes(alloc, host, &config) {
        Ok(volumes) => Ok(Input { config, volumes }),
        Err(status) => Err(status),
    }
}
