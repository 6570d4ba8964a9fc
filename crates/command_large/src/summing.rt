//! The command `large`.

ghost use Rattle.std.specs.Prelude.{◌≡◌, ◌≤◌, [], IfOk, length};
ghost use Rattle.command_input.specs.Answer.{PortsShow};
ghost use Rattle.command_large.specs.Summed.{LargeShows, large_data, large_events};
ghost use Rattle.words_layout.specs.Sizes.{max_events};
ghost use Rattle.config_text.specs.Valid.{IsValid};
ghost use Rattle.loader.specs.Configuration.{configuration};
ghost use Rattle.machine.specs.Banks.{machine_of};
ghost use Rattle.machine.specs.Opening.{machine as machine_after};
ghost use Rattle.schedule.specs.Schedule.{events_of};

use command_input::{PortFault, Status};
use command_run::some_live;
use config_text::Config;
use host_ports::Host;
use loader::{opening_machine, valid_law};
use machine::{Machine, plain_laws};
use schedule::events;
use std::alloc::{AllocError, Global};
use summary::{push_summary, summary_law};
use words_layout::PlainWords;
use workload::large_law;

/// The machine after all events of the configuration's schedule, where no volume belongs to it. All memory is taken before the
/// first event.
fn run_schedule(alloc: Global, config: &Config) -> Result<Machine<PlainWords>, AllocError>
    requires { IsValid config.now }
    ensures machine { IfOk result (λ m. machine_of m ≡ machine_after (configuration config.now []) (events_of config.now)) }
    ensures few { IfOk result (λ m. length (events_of config.now) ≤ max_events) }
{
    let mut machine = opening_machine(alloc, config)?;
    let events = events(alloc, config)?;
    machine.plain_law();
    machine.run(events.as_slice());
    plain_laws();
    Ok(machine)
}

/// The machine after a run of the large configuration of this number.
fn run_large(alloc: Global, number: u64) -> Result<Machine<PlainWords>, AllocError>
    ensures machine { IfOk result (λ m. machine_of m ≡ machine_after (large_data number) (large_events number)) }
    ensures few { IfOk result (λ m. length (large_events number) ≤ max_events) }
{
    large_law();
    let config = workload::large(alloc, number)?;
    run_schedule(alloc, &config)
}

/// Pushes the summary of the machine after the run. It takes no memory.
fn print_summary<H: Host>(host: &mut H, machine: &Machine<PlainWords>, number: u64) -> Status
    requires machine { machine_of machine.now ≡ machine_after (large_data number) (large_events number) }
    requires few { length (large_events number) ≤ max_events }
    ensures { LargeShows number (H.ports host.old) (H.ports host.new) result }
{
    large_law();
    valid_law();
    summary_law();
    match push_summary(host, machine, number) {
        Ok(()) => {}
        Err(_) => return Status::HostFault(PortFault::Write { port: 0 }),
    }
    if some_live(machine) {
        return Status::Unfinished;
    }
    Status::Done
}

/// Runs the large configuration of this number by its schedule, and pushes its summary to port 0, each line as one piece. Done
/// comes where no process is live then, Unfinished where one is, and NoMemory before the first event. Nothing is pulled, and no
/// volume is written.
pub fn large<H: Host>(alloc: Global, host: &mut H, number: u64) -> Status
    ensures shows { LargeShows number (H.ports host.old) (H.ports host.new) result }
    ensures ports { PortsShow (H.ports host.old) (H.ports host.new) result }
{
    match run_large(alloc, number) {
        Ok(machine) => print_summary(host, &machine, number),
        Err(_) => Status::NoMemory,
    }
}
