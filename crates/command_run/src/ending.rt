//! The end of a run.

ghost use Rattle.std.specs.Prelude.{◌≡◌, ◌≤◌, List, length};
ghost use Rattle.command_input.specs.Input.{loaded};
ghost use Rattle.command_run.specs.Printed.{Ends, answer_of};
ghost use Rattle.words_layout.specs.Sizes.{max_events};
ghost use Rattle.config_text.specs.Valid.{IsValid};
ghost use Rattle.loader.specs.Records.{AreVolumes, Loads};
ghost use Rattle.machine.specs.Banks.{machine_of};
ghost use Rattle.machine.specs.Opening.{machine as machine_after};
ghost use Rattle.volume_image.specs.Images.{IsMadeFor};
ghost use Rattle.words_layout.specs.declared.op.Event.{Event};

use crate::images::push_volumes;
use crate::sections::{push_report, some_live};
use command_input::{Input, PortFault, Refusal, Status};
use effect_laws::section_laws;
use host_ports::Host;
use loader::{LoadError, volumes_law};
use machine::Machine;
use volume_image::Image;
use volume_laws::volume_laws;
use words_layout::PlainWords;

/// Pushes the report of the machine after a run to port 0, and then, where no process is live, each volume to its port. It takes
/// no memory. What it says, it says of every order of at most 4,194,304 events that leads the input to this machine.
pub fn finish<H: Host>(
    host: &mut H,
    input: &Input,
    machine: &Machine<PlainWords>,
    image: &mut Image,
) -> Status
    requires valid { IsValid input.now.config }
    requires volumes { AreVolumes input.now.config input.now.volumes.items }
    requires loads { Loads input.now.config input.now.volumes.items }
    requires table { machine.now.shared.table ≡ input.now.config.table }
    requires image { IsMadeFor input.now.config.table image.old }
    ensures { (events : List Event) → machine_of machine.now ≡ machine_after (loaded input.now.config input.now.volumes.items) events → length events ≤ max_events →
        Ends input.now.config input.now.volumes.items events (H.ports host.old) (H.ports host.new) result }
{
    section_laws();
    volumes_law();
    volume_laws();
    match push_report(host, machine) {
        Ok(()) => {}
        Err(_) => return Status::HostFault(PortFault::Write { port: 0 }),
    }
    if some_live(machine) {
        return Status::Unfinished;
    }
    match push_volumes(host, &input.config, machine, image) {
        Ok(()) => Status::Done,
        Err(port) => Status::HostFault(PortFault::Write { port }),
    }
}

/// The answer where the state can't be made.
pub fn load_answer(error: LoadError) -> Status
    ensures { result ≡ answer_of error }
{
    match error {
        LoadError::Fault { volume, item, code } => {
            Status::Refused(Refusal::Load { volume, item, code })
        }
        LoadError::NoMemory => Status::NoMemory,
    }
}
