//! The processes of a class.

ghost use Rattle.std.specs.Prelude.{◌≡◌, ◌<◌, ◌+◌, ◌*◌, ℕ, IfSome, Some, None, is_none, true, length, position, slice_index_or, slice_set};
ghost use Rattle.std.specs.Option.{option_map};
ghost use Rattle.class_model.specs.Config.{Shared, classes};
ghost use Rattle.class_model.specs.Next.{CanStep, KnowsClasses, is_own, outcome_of};
ghost use Rattle.class_model.specs.Plan.{Own, plan};
ghost use Rattle.class_model.specs.Process.{Process, settled};
ghost use Rattle.class_model.specs.State.{with_process};
ghost use Rattle.class_model.specs.Step.{begun};
ghost use Rattle.class_model.specs.Process.{ProcName, new_process};
ghost use Rattle.whole_machine.specs.Parts.{slots_in, part_in};
ghost use Rattle.whole_machine.specs.Steps.{slot_in};
ghost use Rattle.whole_machine.specs.Slots.{SlotTakes, SlotPerforms};

use crate::part::PartState;
use class_model::{ProcessState, Shared, Shown};
use policy::Rule;
use rings::Ring;

/// Where a slot of a processor stands.
fn place_of(processor: u8, slot: u8) -> usize
    requires processor { processor < 4 }
    requires slot { slot < 4 }
    ensures place { result ≡ 4 * processor + slot }
    ensures inside { result < 16 }
{
    4 * processor as usize + slot as usize
}

/// The process at a place takes the effect of its request.
fn settle(bank: &mut Vec<Option<ProcessState>>, at: usize, shown: &Shown)
    requires inside { at < length bank.old.items }
    requires there { IfSome (slice_index_or bank.old.items at None) (λ p. p.place < 256) }
    ensures takes { SlotTakes bank.old.items bank.new.items at (λ p. settled p (outcome_of shown.now)) }
    ensures as_many { length bank.new.items ≡ length bank.old.items }
{
    let item = &mut bank[at];
    if let Some(process) = item {
        process.settle(shown);
    }
}

/// The process at a place carries out its next instruction, which takes effect on itself alone.
fn perform_own(bank: &mut Vec<Option<ProcessState>>, at: usize, shared: &Shared, class: u8)
    requires inside { at < length bank.old.items }
    requires there { IfSome (slice_index_or bank.old.items at None) (λ p. CanStep shared.now class p × (is_own (plan shared.now class p) ≡ true)) }
    ensures performs { SlotPerforms shared.now class bank.old.items bank.new.items at }
    ensures as_many { length bank.new.items ≡ length bank.old.items }
{
    let item = &mut bank[at];
    if let Some(process) = item {
        process.perform_own(shared, class);
    }
}

impl PartState {
    /// The process in a slot of a processor.
    pub(crate) fn process(&self, processor: u8, slot: u8) -> Option<&ProcessState>
        ensures process { option_map (λ p. p.now) result ≡ slot_in self.now processor slot }
        ensures within { IfSome result (λ _. (processor < 4) × (slot < 4)) }
    {
        let bank = self.bank.as_slice();
        if processor >= 4 || slot >= 4 {
            return None;
        }
        bank[place_of(processor, slot)].as_ref()
    }

    /// The process in a slot takes the effect of its request.
    pub(crate) fn settle(&mut self, processor: u8, slot: u8, shown: &Shown)
        requires processor { processor < 4 }
        requires slot { slot < 4 }
        requires there { IfSome (slot_in self.old processor slot) (λ p. p.place < 256) }
        ensures { (p : Process) → slot_in self.old processor slot ≡ Some p → part_in self.new ≡ with_process (part_in self.old) processor slot (settled p (outcome_of shown.now)) }
    {
        let at = place_of(processor, slot);
        settle(&mut self.bank, at, shown);
    }

    /// The process in a slot carries out its next instruction, which takes effect on itself alone.
    pub(crate) fn perform_own(&mut self, shared: &Shared, class: u8, processor: u8, slot: u8)
        requires processor { processor < 4 }
        requires slot { slot < 4 }
        requires there { IfSome (slot_in self.old processor slot) (λ p. CanStep shared.now class p × (is_own (plan shared.now class p) ≡ true)) }
        ensures { (p : Process) → slot_in self.old processor slot ≡ Some p →
            (q : Process) × (plan shared.now class p ≡ Own q) × (part_in self.new ≡ with_process (part_in self.old) processor slot q) × ((n : ℕ) → KnowsClasses n p → KnowsClasses n q) }
    {
        let at = place_of(processor, slot);
        perform_own(&mut self.bank, at, shared, class);
    }

    /// A process takes a slot.
    pub(crate) fn put(&mut self, processor: u8, slot: u8, process: ProcessState)
        requires processor { processor < 4 }
        requires slot { slot < 4 }
        ensures { part_in self.new ≡ with_process (part_in self.old) processor slot process }
    {
        let at = place_of(processor, slot);
        self.bank[at] = Some(process);
    }

    /// Whether a slot never held a process.
    fn is_free(&self, processor: u8, slot: u8) -> bool
        requires processor { processor < 4 }
        requires slot { slot < 4 }
        ensures { result ≡ is_none (slice_index_or self.now.bank (4 * processor + slot) None) }
    {
        self.bank[place_of(processor, slot)].is_none()
    }

    /// The least slot of a processor that never held a process.
    pub(crate) fn free_slot(&self, processor: u8) -> Option<u8>
        requires { processor < 4 }
        ensures free { result ≡ position (λ q. is_none q) (slots_in self.now.bank processor) }
        ensures within { IfSome result (λ slot. slot < 4) }
    {
        if self.is_free(processor, 0) {
            Some(0)
        } else if self.is_free(processor, 1) {
            Some(1)
        } else if self.is_free(processor, 2) {
            Some(2)
        } else if self.is_free(processor, 3) {
            Some(3)
        } else {
            None
        }
    }

    /// The process in a slot begins a process in the least slot that never held one, or is refused.
    pub(crate) fn begin(&mut self, processor: u8, slot: u8, child: ProcessState)
        requires processor { processor < 4 }
        requires slot { slot < 4 }
        requires there { IfSome (slot_in self.old processor slot) (λ p. p.place < 256) }
        ensures { (n : ProcName) (p : Process) → n.processor ≡ processor → n.slot ≡ slot → slot_in self.old processor slot ≡ Some p →
            part_in self.new ≡ begun (part_in self.old) n p child (position (λ q. is_none q) (slots_in self.old.bank processor)) }
    {
        match self.free_slot(processor) {
            None => self.settle(processor, slot, &Shown::Refused(Rule::NoSlot)),
            Some(free) => {
                self.settle(processor, slot, &Shown::Value(free as u64));
                self.put(processor, free, child);
            }
        }
    }
}
