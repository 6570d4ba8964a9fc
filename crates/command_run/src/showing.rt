//! The command `show`.

ghost use Rattle.command_input.specs.Answer.{PortsShow};
ghost use Rattle.command_run.specs.Shows.{ShowShows};

use crate::output::push_text;
use command_input::{PortFault, Status, config_at};
use config_print::print_config;
use host_ports::Host;
use std::alloc::Global;

/// Pushes the text of the configuration at port 0 to port 0. NoMemory comes before the first byte is pushed.
pub fn show<H: Host>(alloc: Global, host: &mut H) -> Status
    ensures shows { ShowShows (H.ports host.old) (H.ports host.new) result }
    ensures ports { PortsShow (H.ports host.old) (H.ports host.new) result }
{
    let config = match config_at(alloc, host) {
        Ok(config) => config,
        Err(status) => return status,
    };
    let Ok(text) = print_config(alloc, &config) else {
        return Status::NoMemory;
    };
    match push_text(host, text.as_bytes()) {
        Err(_) => Status::HostFault(PortFault::Write { port: 0 }),
        Ok(()) => Status::Done,
    }
}
