//! Pushing the summary.

ghost use Rattle.std.specs.Prelude.{◌≡◌};
ghost use Rattle.std.specs.List.{flat_map};
ghost use Rattle.lists.specs.Lists.{below};
ghost use Rattle.class_model.specs.Config.{classes};
ghost use Rattle.machine.specs.Banks.{machine_of};
ghost use Rattle.report.specs.Printing.{Prints};
ghost use Rattle.summary.specs.Summary.{heading, totals_line, machine_totals, machine_summary};

use crate::counting::class_totals;
use crate::totals::Totals;
use host_ports::Host;
use machine::Machine;
use report::{Line, WriteFault, push_line};
use words_layout::PlainWords;

/// The first line.
fn heading(number: u64) -> Line
    ensures { result ≡ heading number }
{
    let mut line = Line::of(b"large");
    line.number(number);
    line.word(b"classes");
    line.word(b"8");
    line.word(b"processors");
    line.word(b"4");
    line.word(b"processes");
    line.word(b"128");
    line.word(b"events");
    line.word(b"4000000");
    line.end();
    line
}

/// The line of a class.
fn totals_line(class: u8, totals: &Totals) -> Line
    ensures { result ≡ totals_line class totals.now }
{
    let mut line = Line::of(b"class");
    line.number(u64::from(class));
    line.word(b"lines");
    line.sum(totals.lines);
    line.word(b"ended");
    line.number(totals.ended);
    line.word(b"live");
    line.number(totals.live);
    line.word(b"tickets");
    line.sum(totals.tickets);
    line.end();
    line
}

/// Pushes the lines of all classes, in order.
fn push_classes<H: Host>(host: &mut H, machine: &Machine<PlainWords>) -> Result<(), WriteFault>
    ensures { Prints (H.ports host.old) (H.ports host.new) (flat_map (λ c. totals_line c (machine_totals (machine_of machine.now) c)) (below (classes machine.now.shared))) result }
{
    for class in 0..machine.shared().table().count() {
        push_line(host, &totals_line(class, &class_totals(machine, class)))?;
    }
    Ok(())
}

/// Pushes the summary of the machine after a run of the large configuration of this number to port 0, each line as one piece. It
/// takes no memory.
pub fn push_summary<H: Host>(
    host: &mut H,
    machine: &Machine<PlainWords>,
    number: u64,
) -> Result<(), WriteFault>
    ensures { Prints (H.ports host.old) (H.ports host.new) (machine_summary number (machine_of machine.now)) result }
{
    push_line(host, &heading(number))?;
    push_classes(host, machine)
}
