//! The lines of processes.

ghost use Rattle.std.specs.Prelude.{◌≡◌, ◌<◌, ◌++◌, ◌||◌, ℕ, OnOk, Some, length, slice_index, string_bytes};
ghost use Rattle.std.specs.List.{flat_map};
ghost use Rattle.class_model.specs.Process.{Process};
ghost use Rattle.class_model.specs.Report.{state_word, process_text, some_live};
ghost use Rattle.class_model.specs.Section.{seen_slots, seen_processes};
ghost use Rattle.whole_machine.specs.Parts.{slots_in};
ghost use Rattle.whole_machine.specs.Steps.{slot_in};
ghost use Rattle.whole_machine.specs.Texts.{numbers_text, slot_text, processor_text, lives, HasRegisters};

use crate::part::PartState;
use crate::text::push_named;
use class_model::ProcessState;
use script_lang::Reg;
use std::alloc::{AllocError, Global};

/// Whether it is live, in a word.
fn state_word(live: bool) -> &'static str
    ensures { result.now ≡ state_word live }
{
    if live { "live" } else { "ended" }
}

/// What a register of this number holds.
fn register(process: &ProcessState, number: u8) -> u64
    requires { number < 16 }
    ensures { result ≡ slice_index process.now.regs number }
{
    match Reg::new(number) {
        Some(reg) => process.register(reg),
        None => 0,
    }
}

/// Writes the registers, each behind a blank.
fn push_registers(alloc: Global, out: &mut String, process: &ProcessState) -> Result<(), AllocError>
    requires { length process.now.regs ≡ 16 }
    ensures { OnOk result (string_bytes out.new ≡ string_bytes out.old ++ numbers_text process.now.regs) }
{
    for number in 0..16u8 {
        push_named(alloc, out, " ", register(process, number))?;
    }
    Ok(())
}

/// Writes the lines of a process.
#[tactic(auto, using(crate::proofs::Pieces::process_pieces))]
fn push_process(
    alloc: Global,
    out: &mut String,
    processor: u8,
    slot: u8,
    process: &ProcessState,
) -> Result<(), AllocError>
    requires { length process.now.regs ≡ 16 }
    ensures { OnOk result (string_bytes out.new ≡ string_bytes out.old ++ process_text (record { processor = processor; slot = slot; process = process.now })) }
{
    push_named(alloc, out, "process ", u64::from(processor))?;
    push_named(alloc, out, " ", u64::from(slot))?;
    out.push_str(" ")?;
    out.push_str(state_word(process.is_live()))?;
    push_named(alloc, out, " script ", u64::from(process.script()))?;
    push_named(alloc, out, " place ", u64::from(process.place()))?;
    push_named(alloc, out, " ring ", u64::from(process.ring().number()))?;
    out.push_str("\nregs")?;
    push_registers(alloc, out, process)?;
    out.push_str("\n")?;
    Ok(())
}

/// Writes the lines of the process in a slot.
fn push_slot(
    alloc: Global,
    out: &mut String,
    part: &PartState,
    processor: u8,
    slot: u8,
) -> Result<(), AllocError>
    requires { HasRegisters part.now }
    ensures { OnOk result (string_bytes out.new ≡ string_bytes out.old ++ slot_text processor slot (slot_in part.now processor slot)) }
{
    match part.process(processor, slot) {
        None => Ok(()),
        Some(process) => push_process(alloc, out, processor, slot, process),
    }
}

/// Writes the lines of the processes of a processor.
#[tactic(auto, using(crate::proofs::Pieces::processor_pieces))]
fn push_processor(
    alloc: Global,
    out: &mut String,
    part: &PartState,
    processor: u8,
) -> Result<(), AllocError>
    requires { HasRegisters part.now }
    ensures { OnOk result (string_bytes out.new ≡ string_bytes out.old ++ processor_text processor (slots_in part.now.bank processor)) }
{
    push_slot(alloc, out, part, processor, 0)?;
    push_slot(alloc, out, part, processor, 1)?;
    push_slot(alloc, out, part, processor, 2)?;
    push_slot(alloc, out, part, processor, 3)?;
    Ok(())
}

/// Writes the lines of all processes.
pub(crate) fn push_processes(
    alloc: Global,
    out: &mut String,
    part: &PartState,
) -> Result<(), AllocError>
    requires { HasRegisters part.now }
    ensures { OnOk result (string_bytes out.new ≡ string_bytes out.old ++ flat_map process_text (seen_processes (slots_in part.now.bank))) }
{
    push_processor(alloc, out, part, 0)?;
    push_processor(alloc, out, part, 1)?;
    push_processor(alloc, out, part, 2)?;
    push_processor(alloc, out, part, 3)?;
    Ok(())
}

/// Whether a slot holds a live process.
fn lives_at(part: &PartState, processor: u8, slot: u8) -> bool
    ensures { result ≡ lives (slot_in part.now processor slot) }
{
    match part.process(processor, slot) {
        None => false,
        Some(process) => process.is_live(),
    }
}

/// Whether one of the four slots of a processor holds a live process.
fn four_live(part: &PartState, processor: u8) -> bool
    ensures { result ≡ (lives (slot_in part.now processor 0) || lives (slot_in part.now processor 1) || lives (slot_in part.now processor 2) || lives (slot_in part.now processor 3)) }
{
    lives_at(part, processor, 0)
        || lives_at(part, processor, 1)
        || lives_at(part, processor, 2)
        || lives_at(part, processor, 3)
}

/// Whether a process of a processor is live.
#[tactic(auto, using(crate::proofs::Pieces::four_live))]
fn lives_on(part: &PartState, processor: u8) -> bool
    ensures { result ≡ some_live (seen_slots processor (slots_in part.now.bank processor)) }
{
    four_live(part, processor)
}

/// Whether a process of one of the four processors is live.
fn lives_anywhere(part: &PartState) -> bool
    ensures { result ≡ (some_live (seen_slots 0 (slots_in part.now.bank 0)) || some_live (seen_slots 1 (slots_in part.now.bank 1)) ||
        some_live (seen_slots 2 (slots_in part.now.bank 2)) || some_live (seen_slots 3 (slots_in part.now.bank 3))) }
{
    lives_on(part, 0) || lives_on(part, 1) || lives_on(part, 2) || lives_on(part, 3)
}

/// Whether a process is live.
pub(crate) fn some_live(part: &PartState) -> bool
    ensures { result ≡ some_live (seen_processes (slots_in part.now.bank)) }
{
    lives_anywhere(part)
}
