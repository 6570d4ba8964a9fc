//! The console lines of a class.

ghost use Rattle.std.specs.Prelude.{◌≡◌, ◌<◌};
ghost use Rattle.std.specs.List.{flat_map};
ghost use Rattle.class_model.specs.Config.{classes};
ghost use Rattle.machine.specs.Banks.{machine_of};
ghost use Rattle.machine.specs.Reading.{buffered, printed};
ghost use Rattle.report.specs.Parts.{console_text, value_text, value_in};
ghost use Rattle.report.specs.Printing.{Prints};

use crate::pieces::console_line;
use crate::printing::{WriteFault, push_line};
use host_ports::Host;
use machine::Machine;
use words_layout::PlainWords;

/// The value of the first line of a place among lines.
fn value_in(lines: &[(u32, u64)], place: u32) -> Option<u64>
    ensures { result ≡ value_in lines.now place }
{
    for line in lines {
        if line.0 == place {
            return Some(line.1);
        }
    }
    None
}

/// The value of the first line of a place among those of all processors.
fn line_at(machine: &Machine<PlainWords>, class: u8, place: u32) -> Option<u64>
    requires { class < classes machine.now.shared }
    ensures { result ≡ value_in (buffered ((machine_of machine.now).part class)) place }
{
    machine.machine_law();
    for processor in 0..machine.processors() {
        let lines = machine.virtual_processor(processor, class).lines();
        if let Some(value) = value_in(lines, place) {
            return Some(value);
        }
    }
    None
}

fn print_line_at<H: Host>(
    host: &mut H,
    machine: &Machine<PlainWords>,
    class: u8,
    place: u32,
) -> Result<(), WriteFault>
    requires { class < classes machine.now.shared }
    ensures { Prints (H.ports host.old) (H.ports host.new) (value_text (value_in (buffered ((machine_of machine.now).part class)) place)) result }
{
    match line_at(machine, class, place) {
        Some(value) => push_line(host, &console_line(value)),
        None => Ok(()),
    }
}

/// The console lines of a class in the order of their places.
pub fn print_lines<H: Host>(
    host: &mut H,
    machine: &Machine<PlainWords>,
    class: u8,
) -> Result<(), WriteFault>
    requires { class < classes machine.now.shared }
    ensures { Prints (H.ports host.old) (H.ports host.new) (flat_map console_text (printed machine.now.shared ((machine_of machine.now).part class))) result }
{
    for place in 0..machine.shared().console() {
        print_line_at(host, machine, class, place)?;
    }
    Ok(())
}
