//! The report of a machine, and whether a process of it is live.

ghost use Rattle.std.specs.Prelude.{◌≡◌};
ghost use Rattle.std.specs.List.{flat_map, list_any};
ghost use Rattle.lists.specs.Lists.{below};
ghost use Rattle.class_model.specs.Config.{classes};
ghost use Rattle.command_run.specs.Headline.{class_live};
ghost use Rattle.machine.specs.Banks.{machine_of};
ghost use Rattle.report.specs.Printing.{Prints};
ghost use Rattle.report.specs.Reported.{section};

use host_ports::Host;
use machine::Machine;
use report::{WriteFault, section};
use words_layout::PlainWords;

/// Pushes the sections of all classes, in order. It takes no memory.
pub fn push_report<H: Host>(host: &mut H, machine: &Machine<PlainWords>) -> Result<(), WriteFault>
    ensures { Prints (H.ports host.old) (H.ports host.new) (flat_map (λ c. section c (machine_of machine.now)) (below (classes machine.now.shared))) result }
{
    for class in 0..machine.shared().table().count() {
        section(host, machine, class)?;
    }
    Ok(())
}

/// Whether a process is live.
pub fn some_live(machine: &Machine<PlainWords>) -> bool
    ensures { result ≡ list_any (class_live (machine_of machine.now)) (below (classes machine.now.shared)) }
{
    machine.machine_law();
    for class in 0..machine.shared().table().count() {
        if !machine.ended(class) {
            return true;
        }
    }
    false
}
