//! The command `view`.

ghost use Rattle.std.specs.Prelude.{◌≡◌, ◌<◌, ◌≤◌, IfOk, length};
ghost use Rattle.class_model.specs.Config.{low_config};
ghost use Rattle.command_input.specs.Answer.{PortsShow};
ghost use Rattle.command_input.specs.Input.{loaded};
ghost use Rattle.command_view.specs.Viewed.{IsMachineSection, ViewShows, section_due};
ghost use Rattle.words_layout.specs.Sizes.{max_events};
ghost use Rattle.config_text.specs.Valid.{IsValid};
ghost use Rattle.loader.specs.Records.{AreVolumes, Loads};
ghost use Rattle.loader.specs.Refusals.{IsRefusedRightly};
ghost use Rattle.low_answer.specs.LowShows.{LowPrints};
ghost use Rattle.machine.specs.Banks.{machine_of};
ghost use Rattle.machine.specs.Low.{low_events};
ghost use Rattle.machine.specs.Opening.{machine as machine_after};
ghost use Rattle.schedule.specs.Schedule.{events_of};

use command_input::{Input, Status, read_input};
use command_run::load_answer;
use config_text::Config;
use effect_laws::section_laws;
use host_ports::Host;
use loader::{LoadError, load_state_low, volumes_law};
use low_answer::answer_after;
use low_run::run_low;
use machine::Machine;
use report::section;
use report_laws::shown_laws;
use schedule::events;
use std::alloc::Global;
use volume_image::Volume;
use words_layout::PlainWords;

/// The machine of what is at or below the class, after the events of the schedule there, or the first record at fault. All memory
/// is taken before the first event.
fn run_view(
    alloc: Global,
    config: &Config,
    volumes: &[(u8, Volume)],
    class: u8,
) -> Result<Machine<PlainWords>, LoadError>
    requires valid { IsValid config.now }
    requires volumes { AreVolumes config.now volumes.now }
    requires class { class < length config.now.table }
    ensures machine { IfOk result (λ m. machine_of m ≡ machine_after (low_config class (loaded config.now volumes.now)) (low_events config.now.table class (events_of config.now))) }
    ensures few { IfOk result (λ m. length (events_of config.now) ≤ max_events) }
    ensures fault { IsRefusedRightly config.now volumes.now result }
{
    let mut machine = load_state_low(alloc, config, volumes, class)?;
    let events = events(alloc, config)?;
    run_low(&mut machine, events.as_slice(), class);
    Ok(machine)
}

/// Pushes the section of the class. What the answer says, it says of the machine of what is at or below the class after the events
/// there.
fn print_view<H: Host>(
    host: &mut H,
    input: &Input,
    machine: &Machine<PlainWords>,
    class: u8,
) -> Status
    requires valid { IsValid input.now.config }
    requires volumes { AreVolumes input.now.config input.now.volumes.items }
    requires loads { Loads input.now.config input.now.volumes.items }
    requires class { class < length input.now.config.table }
    requires machine { machine_of machine.now ≡ machine_after (low_config class (loaded input.now.config input.now.volumes.items)) (low_events input.now.config.table class (events_of input.now.config)) }
    requires few { length (events_of input.now.config) ≤ max_events }
    ensures { LowPrints section_due IsMachineSection class input.now.config input.now.volumes.items (H.ports host.old) (H.ports host.new) result }
{
    section_laws();
    shown_laws();
    volumes_law();
    let printed = section(host, machine, class);
    answer_after(printed, machine)
}

/// Runs what is at or below the class of the configuration at port 0, with the volumes at the ports that it names, by the events of
/// its schedule at or below the class, and pushes the section of the class to port 0, each line as one piece: that which `sim`
/// prints. Unfinished comes where a process at or below the class is live then. Nothing is pushed to another port.
pub fn view<H: Host>(alloc: Global, host: &mut H, class: u8) -> Status
    ensures shows { ViewShows class (H.ports host.old) (H.ports host.new) result }
    ensures ports { PortsShow (H.ports host.old) (H.ports host.new) result }
{
    let input = match read_input(alloc, host, Some(class)) {
        Ok(input) => input,
        Err(status) => return status,
    };
    match run_view(alloc, &input.config, input.volumes.as_slice(), class) {
        Ok(machine) => print_view(host, &input, &machine, class),
        Err(error) => load_answer(error),
    }
}
