//! The command `audit`.

ghost use Rattle.std.specs.Prelude.{◌≡◌};
ghost use Rattle.std.specs.List.{AllByRecursion};
ghost use Rattle.audit_trail.specs.Lines.{HasLine};
ghost use Rattle.command_audit.specs.Audited.{AuditShows, IsAllowed, trail_due};
ghost use Rattle.command_input.specs.Answer.{PortsShow};
ghost use Rattle.command_input.specs.Input.{loaded};
ghost use Rattle.low_answer.specs.LowShows.{LowPrints};
ghost use Rattle.low_trail.specs.LowTrail.{low_trail, low_machine};
ghost use Rattle.machine.specs.Banks.{machine_of};
ghost use Rattle.schedule.specs.Schedule.{events_of};

use command_input::{Input, Status, read_input};
use command_run::load_answer;
use host_ports::Host;
use low_answer::answer_after;
use low_trail::{LowTrail, push_lines, trail_of_low};
use std::alloc::Global;

/// Pushes the lines of the trail. It takes no memory.
fn print_trail<H: Host>(host: &mut H, input: &Input, trail: &LowTrail, class: u8) -> Status
    requires trail { trail.now.entries.items ≡ low_trail class (loaded input.now.config input.now.volumes.items) (events_of input.now.config) }
    requires lines { AllByRecursion HasLine trail.now.entries.items }
    requires allowed { IsAllowed class input.now.config input.now.volumes.items }
    requires machine { machine_of trail.now.machine ≡ low_machine class (loaded input.now.config input.now.volumes.items) (events_of input.now.config) }
    ensures { LowPrints trail_due IsAllowed class input.now.config input.now.volumes.items (H.ports host.old) (H.ports host.new) result }
{
    let printed = push_lines(host, trail.entries.as_slice());
    answer_after(printed, &trail.machine)
}

/// Runs what is at or below the class of the configuration at port 0, with the volumes at the ports that it names, by the events of
/// its schedule at or below the class, and pushes the trail of that run to port 0, each line as one piece: every access and every
/// reply in the order of effect, refused replies too. Each access in it is allowed. Unfinished comes where a process at or below
/// the class is live then. Nothing is pushed to another port, and NoMemory comes before the first push.
pub fn audit<H: Host>(alloc: Global, host: &mut H, class: u8) -> Status
    ensures shows { AuditShows class (H.ports host.old) (H.ports host.new) result }
    ensures ports { PortsShow (H.ports host.old) (H.ports host.new) result }
{
    let input = match read_input(alloc, host, Some(class)) {
        Ok(input) => input,
        Err(status) => return status,
    };
    match trail_of_low(alloc, &input.config, input.volumes.as_slice(), class) {
        Ok(trail) => print_trail(host, &input, &trail, class),
        Err(error) => load_answer(error),
    }
}
