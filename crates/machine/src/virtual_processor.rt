//! Virtual processors.

ghost use Rattle.std.specs.Prelude.{◌≡◌, ◌<◌, ℕ, [], Option, None, Some, IfOk, IfSome, IsTrue, ◌↔◌, replicate, slice_set, slice_index_or};
ghost use Rattle.std.specs.Option.{option_map};
ghost use Rattle.class_model.specs.Config.{classes};
ghost use Rattle.machine.specs.Processing.{holds_live, live_count, first_live, free_in, with_made, current_after};
ghost use Rattle.machine.specs.Steps.{IsChosen, ProcessingFits, StepsBy, SlotPerforms, MadeHere, effect_of};

use crate::lines::Lines;
use class_model::Shared;
use policy::Outcome;
use process::{Absorbed, Made, Process};
use std::alloc::{AllocError, Global};
use std::marker::Model;
use words_layout::WordPort;

/// The virtual processor of a class on a processor: four slots for processes, and console lines by place.
#[derive(Drop)]
pub struct VirtualProcessor {
    class: u8,
    current: u8,
    /// How many of its processes are live, so that a step of one without a live process is one test.
    live: u8,
    /// The least slot that never held a process, so that no step looks for it.
    free: Option<u8>,
    console: Lines,
    slots: [Option<Process>; 4],
}

impl Model for VirtualProcessor {
    ghost use Rattle.std.specs.Prelude.{◌≡◌, ◌<◌, length};
    ghost use Rattle.machine.specs.Processing.{Processing, live_count, free_in};

    ghost Value = { Processing };

    ghost view = { λ v. record { class = v.class; slots = v.slots; current = v.current; lines = v.console.pairs; room = v.console.room } };

    ghost invariant = { λ v. (v.current < 4) × (length v.slots ≡ 4) × (v.live ≡ live_count v.slots) × (v.free ≡ free_in v.slots) };
}

/// The slot that is current after a step of this one: the next one after a poll and at the end of an instruction.
fn current_after(slot: u8, outcome: Outcome) -> u8
    requires { slot < 4 }
    ensures after { result ≡ current_after slot outcome }
    ensures within { result < 4 }
{
    match outcome {
        Outcome::Going => slot,
        _ => (slot + 1) % 4,
    }
}

/// The slot, where there was an effect.
fn effect_of(slot: u8, effect: bool) -> Option<u8>
    ensures { result ≡ effect_of slot effect }
{
    if effect { Some(slot) } else { None }
}

/// The least slot that never held a process.
fn free_slot(slots: &[Option<Process>; 4]) -> Option<u8>
    ensures { result ≡ free_in slots.now }
{
    if slots[0].is_none() {
        Some(0)
    } else if slots[1].is_none() {
        Some(1)
    } else if slots[2].is_none() {
        Some(2)
    } else if slots[3].is_none() {
        Some(3)
    } else {
        None
    }
}

impl VirtualProcessor {
    /// A virtual processor with empty slots, and with room for so many console lines.
    pub fn new(alloc: Global, class: u8, console: u32) -> Result<VirtualProcessor, AllocError>
        ensures { IfOk result (λ v. v ≡ record { class = class; slots = replicate 4 None; current = 0; lines = []; room = console }) }
    {
        let console = Lines::new(alloc, console)?;
        Ok(VirtualProcessor {
            class,
            slots: [None, None, None, None],
            current: 0,
            live: 0,
            free: Some(0),
            console,
        })
    }

    /// Fills an empty slot with a process of its class.
    pub fn put(&mut self, slot: u8, process: Process)
        requires slot { slot < 4 }
        requires empty { slice_index_or self.old.slots slot None ≡ None }
        requires class { process.class ≡ self.old.class }
        ensures { self.new ≡ record self.old { slots = slice_set self.old.slots slot (Some process) } }
    {
        if process.is_live() {
            self.live += 1;
        }
        self.slots[slot as usize] = Some(process);
        self.free = free_slot(&self.slots);
    }

    /// The process of a slot. None exactly where the slot is empty.
    pub fn slot(&self, slot: u8) -> Option<&Process>
        requires { slot < 4 }
        ensures { option_map (λ p. p.now) result ≡ slice_index_or self.now.slots slot None }
    {
        self.slots[slot as usize].as_ref()
    }

    /// The console lines, each with its place, in the order in which they came.
    pub fn lines(&self) -> &[(u32, u64)]
        ensures { result.now ≡ self.now.lines }
    {
        self.console.as_slice()
    }

    /// Whether none of its processes is live.
    pub fn is_idle(&self) -> bool
        ensures { IsTrue result ↔ (live_count self.now.slots ≡ 0) }
    {
        self.live == 0
    }

    /// Whether a slot holds a live process.
    fn lives_at(&self, slot: u8) -> bool
        requires { slot < 4 }
        ensures { result ≡ holds_live (slice_index_or self.now.slots slot None) }
    {
        match &self.slots[slot as usize] {
            Some(process) => process.is_live(),
            None => false,
        }
    }

    /// The first slot with a live process, from the current one on.
    fn first_live(&self) -> Option<u8>
        ensures first { result ≡ first_live self.now.slots self.now.current }
        ensures chosen { IfSome result (IsChosen self.now) }
        ensures current { self.now.current < 4 }
    {
        let at = self.current;
        if self.live == 0 {
            None
        } else if self.lives_at(at) {
            Some(at)
        } else if self.lives_at((at + 1) % 4) {
            Some((at + 1) % 4)
        } else if self.lives_at((at + 2) % 4) {
            Some((at + 2) % 4)
        } else if self.lives_at((at + 3) % 4) {
            Some((at + 3) % 4)
        } else {
            None
        }
    }

    /// The process of the slot takes its step.
    #[tactic(auto, using(crate::proofs::Slots::free_kept))]
    fn step_at<W: WordPort>(&mut self, slot: u8, port: &mut W, shared: &Shared) -> Absorbed
        requires chosen { IsChosen self.old slot }
        requires fits { ProcessingFits shared.now self.old }
        requires layout { W.classes port.old ≡ classes shared.now }
        ensures step { SlotPerforms W.relation shared.now self.old slot port.old self.new port.new result.outcome result.made result.effect }
        ensures layout { W.classes port.new ≡ classes shared.now }
    {
        let free = self.free;
        let Some(process) = &mut self.slots[slot as usize] else {
            return Absorbed {
                outcome: Outcome::Going,
                made: Made::Nothing,
                effect: false,
            };
        };
        let absorbed = process.step(port, shared, free);
        if !process.is_live() {
            self.live -= 1;
        }
        absorbed
    }

    /// Takes what a step gave beside.
    fn take_made(&mut self, made: Made)
        requires { MadeHere self.old made }
        ensures { self.new ≡ with_made self.old made }
    {
        match made {
            Made::Nothing => {}
            Made::Line { place, value } => self.console.put(place, value),
            Made::Child {
                slot,
                script,
                ring,
                start,
            } => self.put(slot, Process::new(self.class, script, ring, start)),
        }
    }

    /// The process of the slot takes its step, and what the step gave beside is taken: the slot, if its instruction took
    /// effect.
    fn step_slot<W: WordPort>(&mut self, slot: u8, port: &mut W, shared: &Shared) -> Option<u8>
        requires chosen { IsChosen self.old slot }
        requires fits { ProcessingFits shared.now self.old }
        requires layout { W.classes port.old ≡ classes shared.now }
        ensures step { StepsBy W.relation shared.now self.old port.old self.new port.new result }
        ensures fits { ProcessingFits shared.now self.new }
        ensures layout { W.classes port.new ≡ classes shared.now }
    {
        let absorbed = self.step_at(slot, port, shared);
        self.take_made(absorbed.made);
        self.current = current_after(slot, absorbed.outcome);
        effect_of(slot, absorbed.effect)
    }

    /// Takes one step, as `step_effect` does.
    pub fn step<W: WordPort>(&mut self, port: &mut W, shared: &Shared)
        requires fits { ProcessingFits shared.now self.old }
        requires layout { W.classes port.old ≡ classes shared.now }
        ensures step { (effect : Option ℕ) × StepsBy W.relation shared.now self.old port.old self.new port.new effect }
        ensures fits { ProcessingFits shared.now self.new }
        ensures layout { W.classes port.new ≡ classes shared.now }
    {
        let _effect = self.step_effect(port, shared);
    }

    /// Takes one step: the first live process from the current slot on performs its one operation and absorbs the
    /// answer. Where none is live nothing happens. The slot of the process whose instruction, or look of a `read` or
    /// `await`, takes effect by this step; None exactly where none does.
    pub fn step_effect<W: WordPort>(&mut self, port: &mut W, shared: &Shared) -> Option<u8>
        requires fits { ProcessingFits shared.now self.old }
        requires layout { W.classes port.old ≡ classes shared.now }
        ensures step { StepsBy W.relation shared.now self.old port.old self.new port.new result }
        ensures fits { ProcessingFits shared.now self.new }
        ensures layout { W.classes port.new ≡ classes shared.now }
    {
        let Some(slot) = self.first_live() else {
            return None;
        };
        self.step_slot(slot, port, shared)
    }
}
