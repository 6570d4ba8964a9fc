//! The section of a class.

ghost use Rattle.std.specs.Prelude.{◌≡◌, ◌<◌, map};
ghost use Rattle.std.specs.List.{filter};
ghost use Rattle.class_model.specs.Config.{classes};
ghost use Rattle.class_model.specs.State.{identities};
ghost use Rattle.class_model.specs.Report.{closing_text, some_live};
ghost use Rattle.machine.specs.Banks.{machine_of};
ghost use Rattle.report.specs.Reported.{section, seen};
ghost use Rattle.report.specs.Printing.{Prints};

use crate::consoles::print_lines;
use crate::pieces::{heading, word_line};
use crate::printing::{WriteFault, push_line};
use crate::processes::print_processes;
use crate::segments::print_segments;
use host_ports::Host;
use machine::Machine;
use words_layout::PlainWords;

/// Open and nothing more while a process of the class is live, else closed and the segments.
fn print_closing<H: Host>(
    host: &mut H,
    machine: &Machine<PlainWords>,
    class: u8,
) -> Result<(), WriteFault>
    requires { class < classes machine.now.shared }
    ensures { Prints (H.ports host.old) (H.ports host.new)
        (closing_text (some_live (seen class (machine_of machine.now)).processes) (seen class (machine_of machine.now)).segments) result }
{
    machine.machine_law();
    if machine.ended(class) {
        push_line(host, &word_line(b"closed"))?;
        print_segments(host, machine, class)
    } else {
        push_line(host, &word_line(b"open"))
    }
}

/// Pushes the section of a class to port 0, each line as one piece. It takes no memory.
pub fn section<H: Host>(
    host: &mut H,
    machine: &Machine<PlainWords>,
    class: u8,
) -> Result<(), WriteFault>
    requires { class < classes machine.now.shared }
    ensures { Prints (H.ports host.old) (H.ports host.new) (section class (machine_of machine.now)) result }
{
    let table = machine.shared().table();
    table.name_law(class);
    push_line(host, &heading(class, table.name(class)))?;
    print_lines(host, machine, class)?;
    machine.machine_law();
    print_processes(host, machine, class)?;
    print_closing(host, machine, class)
}
