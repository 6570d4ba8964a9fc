//! What a class comes to, counted off the step machine.

ghost use Rattle.std.specs.Prelude.{◌≡◌, ◌<◌, ◌≤◌, length, count_by, slice_index_or, None};
ghost use Rattle.std.specs.Option.{option_map};
ghost use Rattle.lists.specs.Lists.{below};
ghost use Rattle.class_model.specs.Config.{classes};
ghost use Rattle.machine.specs.Banks.{machine_of};
ghost use Rattle.machine.specs.Reading.{buffered, processes_of};
ghost use Rattle.process.specs.Standing.{Standing};
ghost use Rattle.summary.specs.Summary.{is_in_state, processes_in, machine_totals};

use crate::sequencers::class_tickets;
use crate::totals::Totals;
use machine::{Machine, VirtualProcessor};
use words_layout::PlainWords;

/// How many console lines a class has, over all processors.
fn class_lines(machine: &Machine<PlainWords>, class: u8) -> u128
    requires { class < classes machine.now.shared }
    ensures { result ≡ length (buffered ((machine_of machine.now).part class)) }
{
    machine.machine_law();
    let mut lines = 0u128;
    for processor in 0..machine.processors() {
        lines += machine.virtual_processor(processor, class).lines().len() as u128;
    }
    lines
}

/// Whether the slot holds a process that is live, or else one that has ended.
fn is_in_state(here: &VirtualProcessor, slot: u8, live: bool) -> bool
    requires { slot < 4 }
    ensures { result ≡ is_in_state live (option_map (λ (v : Standing). v.process) (slice_index_or here.now.slots slot None)) }
{
    match here.slot(slot) {
        Some(process) => process.is_live() == live,
        None => false,
    }
}

/// How many processes of a virtual processor are live, or else have ended.
fn slots_in(here: &VirtualProcessor, live: bool) -> u64
    ensures count { result ≡ count_by (λ i. is_in_state live (option_map (λ (v : Standing). v.process) (slice_index_or here.now.slots i None))) (below 4) }
    ensures most { result ≤ 4 }
{
    let mut count = 0;
    for slot in 0..4 {
        if is_in_state(here, slot, live) {
            count += 1;
        }
    }
    count
}

/// How many processes of a class are live, or else have ended.
fn class_processes(machine: &Machine<PlainWords>, class: u8, live: bool) -> u64
    requires { class < classes machine.now.shared }
    ensures { result ≡ processes_in live (λ p. processes_of (((machine_of machine.now).part class).vp p)) }
{
    machine.machine_law();
    let mut count = 0;
    for processor in 0..machine.processors() {
        count += slots_in(machine.virtual_processor(processor, class), live);
    }
    count
}

/// What a class comes to. It takes no memory.
pub fn class_totals(machine: &Machine<PlainWords>, class: u8) -> Totals
    requires { class < classes machine.now.shared }
    ensures { result ≡ machine_totals (machine_of machine.now) class }
{
    Totals {
        lines: class_lines(machine, class),
        ended: class_processes(machine, class, false),
        live: class_processes(machine, class, true),
        tickets: class_tickets(machine, class),
    }
}
