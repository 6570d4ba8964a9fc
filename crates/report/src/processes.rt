//! The processes of a class.

ghost use Rattle.std.specs.Prelude.{◌≡◌, ◌<◌, slice_index_or, None};
ghost use Rattle.class_model.specs.Config.{classes};
ghost use Rattle.class_model.specs.Report.{process_text};
ghost use Rattle.report.specs.Parts.{slot_text, slots_text, processes_text};
ghost use Rattle.report.specs.Printing.{Prints};

use crate::pieces::{process_line, registers_line};
use crate::printing::{WriteFault, push_line};
use host_ports::Host;
use machine::{Machine, VirtualProcessor};
use process::Process;
use words_layout::PlainWords;

fn print_process<H: Host>(
    host: &mut H,
    processor: u8,
    slot: u8,
    process: &Process,
) -> Result<(), WriteFault>
    ensures { Prints (H.ports host.old) (H.ports host.new) (process_text (record { processor = processor; slot = slot; process = process.now.process })) result }
{
    push_line(host, &process_line(processor, slot, process))?;
    push_line(host, &registers_line(process.registers()))
}

fn print_slot<H: Host>(
    host: &mut H,
    processor: u8,
    slot: u8,
    here: &VirtualProcessor,
) -> Result<(), WriteFault>
    requires { slot < 4 }
    ensures { Prints (H.ports host.old) (H.ports host.new) (slot_text processor slot (slice_index_or here.now.slots slot None)) result }
{
    match here.slot(slot) {
        Some(process) => print_process(host, processor, slot, process),
        None => Ok(()),
    }
}

fn print_slots<H: Host>(
    host: &mut H,
    processor: u8,
    here: &VirtualProcessor,
) -> Result<(), WriteFault>
    ensures { Prints (H.ports host.old) (H.ports host.new) (slots_text processor here.now) result }
{
    for slot in 0..4 {
        print_slot(host, processor, slot, here)?;
    }
    Ok(())
}

/// The processes of a class, by processor and slot.
pub fn print_processes<H: Host>(
    host: &mut H,
    machine: &Machine<PlainWords>,
    class: u8,
) -> Result<(), WriteFault>
    requires { class < classes machine.now.shared }
    ensures { Prints (H.ports host.old) (H.ports host.new) (processes_text machine.now class) result }
{
    machine.machine_law();
    for processor in 0..machine.processors() {
        print_slots(host, processor, machine.virtual_processor(processor, class))?;
    }
    Ok(())
}
