//! The command `sim`.

ghost use Rattle.std.specs.Prelude.{◌≡◌, ◌≤◌, IfOk, length};
ghost use Rattle.command_input.specs.Answer.{PortsShow};
ghost use Rattle.command_input.specs.Input.{loaded};
ghost use Rattle.command_run.specs.Shows.{RunShows, IsSchedule};
ghost use Rattle.words_layout.specs.Sizes.{max_events};
ghost use Rattle.config_text.specs.Valid.{IsValid};
ghost use Rattle.loader.specs.Records.{AreVolumes};
ghost use Rattle.loader.specs.Refusals.{IsRefusedRightly};
ghost use Rattle.machine.specs.Banks.{machine_of};
ghost use Rattle.machine.specs.Opening.{machine};
ghost use Rattle.schedule.specs.Schedule.{events_of};

use crate::ending::{finish, load_answer};
use command_input::{Status, read_input};
use config_text::Config;
use host_ports::Host;
use loader::{LoadError, load_state};
use machine::Machine;
use schedule::events;
use std::alloc::Global;
use volume_image::{Image, Volume};
use whole_runs::run_whole;
use words_layout::PlainWords;

/// The machine after all events of the configuration's schedule, or the first record at fault. All memory is taken before the
/// first event.
fn run_schedule(
    alloc: Global,
    config: &Config,
    volumes: &[(u8, Volume)],
) -> Result<Machine<PlainWords>, LoadError>
    requires valid { IsValid config.now }
    requires volumes { AreVolumes config.now volumes.now }
    ensures machine { IfOk result (λ m. machine_of m ≡ machine (loaded config.now volumes.now) (events_of config.now)) }
    ensures few { IfOk result (λ m. length (events_of config.now) ≤ max_events) }
    ensures fault { IsRefusedRightly config.now volumes.now result }
{
    let mut machine = load_state(alloc, config, volumes)?;
    let events = events(alloc, config)?;
    run_whole(&mut machine, events.as_slice());
    Ok(machine)
}

/// Runs the configuration at port 0, with the volumes at the ports that it names, by its schedule. It pushes the report to port
/// 0, each line as one piece, and then, where no process is live, each volume to its port in format 2.
pub fn sim<H: Host>(alloc: Global, host: &mut H) -> Status
    ensures shows { RunShows IsSchedule (H.ports host.old) (H.ports host.new) result }
    ensures ports { PortsShow (H.ports host.old) (H.ports host.new) result }
{
    let input = match read_input(alloc, host, None) {
        Ok(input) => input,
        Err(status) => return status,
    };
    let Ok(mut image) = Image::new(alloc, &input.config.table) else {
        return Status::NoMemory;
    };
    match run_schedule(alloc, &input.config, input.volumes.as_slice()) {
        Ok(machine) => finish(host, &input, &machine, &mut image),
        Err(error) => load_answer(error),
    }
}
