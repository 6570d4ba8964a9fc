//! The command `run`.

ghost use Rattle.std.specs.Prelude.{◌≡◌, IfOk};
ghost use Rattle.command_input.specs.Answer.{PortsShow};
ghost use Rattle.command_run.specs.Shows.{RunShows};
ghost use Rattle.command_threads.specs.Orders.{IsRoundOrder, LeftByRounds};
ghost use Rattle.config_text.specs.Valid.{IsValid};
ghost use Rattle.loader.specs.Records.{AreVolumes};
ghost use Rattle.loader.specs.Refusals.{IsRefusedRightly};

use crate::rounds::{Left, run_rounds};
use command_input::{Status, read_input};
use command_run::{finish, load_answer};
use config_text::Config;
use host_ports::Host;
use loader::{LoadError, load_state};
use machine::Machine;
use processors::Pace;
use std::alloc::Global;
use std::thread::Threads;
use volume_image::{Image, Volume};
use words_layout::PlainWords;

/// The machine after the rounds of the configuration's processors, or the first record at fault. All memory is taken before the
/// first step.
fn run_by_rounds<R: Threads + Sync, P: Pace + Sync>(
    rt: &R,
    alloc: Global,
    config: &Config,
    volumes: &[(u8, Volume)],
    pace: &P,
) -> Result<Machine<PlainWords>, LoadError>
    requires valid { IsValid config.now }
    requires volumes { AreVolumes config.now volumes.now }
    ensures machine { IfOk result (λ m. LeftByRounds config.now volumes.now m) }
    ensures fault { IsRefusedRightly config.now volumes.now result }
{
    let machine = load_state(alloc, config, volumes)?;
    let Left { taken: _, machine } = run_rounds(rt, alloc, config, machine, pace)?;
    Ok(machine)
}

/// Runs the configuration at port 0, with the volumes at the ports that it names, by processors that are threads. It pushes the
/// report to port 0, each line as one piece, and then, where no process is live, each volume to its port in format 2. The order
/// of the word steps is the one that the threads take: one round list, of which all of that is said. The pace is told of each
/// step before it is taken, by the thread that takes it.
pub fn run<R: Threads + Sync, H: Host, P: Pace + Sync>(
    rt: &R,
    alloc: Global,
    host: &mut H,
    pace: &P,
) -> Status
    ensures shows { RunShows IsRoundOrder (H.ports host.old) (H.ports host.new) result }
    ensures ports { PortsShow (H.ports host.old) (H.ports host.new) result }
{
    let input = match read_input(alloc, host, None) {
        Ok(input) => input,
        Err(status) => return status,
    };
    let Ok(mut image) = Image::new(alloc, &input.config.table) else {
        return Status::NoMemory;
    };
    match run_by_rounds(rt, alloc, &input.config, input.volumes.as_slice(), pace) {
        Ok(machine) => finish(host, &input, &machine, &mut image),
        Err(error) => load_answer(error),
    }
}
