//! What a request changes that looks at the part of the caller's class alone.

ghost use Rattle.std.specs.Prelude.{◌≡◌, ◌<◌, ℕ, true, IfOk, IfSome, OnErr, Some, List};
ghost use Rattle.lists.specs.Lists.{part_of};
ghost use Rattle.class_model.specs.Config.{classes};
ghost use Rattle.class_model.specs.Next.{InRange, outcome_of};
ghost use Rattle.class_model.specs.Process.{Process, settled};
ghost use Rattle.class_model.specs.State.{with_process, entry_at};
ghost use Rattle.class_model.specs.Step.{create_effect, update_effect};
ghost use Rattle.policy.specs.Private.{brackets_of};
ghost use Rattle.class_model.specs.Next.{IsChild, InBounds};
ghost use Rattle.whole_machine.specs.Parts.{part_in};
ghost use Rattle.whole_machine.specs.Shows.{Shows, Stands};
ghost use Rattle.whole_machine.specs.Steps.{is_change, change_effect, slot_in};

use crate::part::PartState;
use class_model::{Request, Shared, Shown};
use policy::{Known, Rule, brackets_from};
use rings::Ring;
use std::alloc::{AllocError, Global};

impl PartState {
    /// The pad of the process in a slot.
    fn pad(&self, processor: u8, slot: u8) -> [u64; 64]
        ensures { (p : Process) → slot_in self.now processor slot ≡ Some p → result ≡ p.pad }
    {
        match self.process(processor, slot) {
            Some(process) => *process.pad(),
            None => [0; 64],
        }
    }

    /// The ring of the process in a slot.
    pub(crate) fn ring(&self, processor: u8, slot: u8) -> Ring
        ensures { (p : Process) → slot_in self.now processor slot ≡ Some p → result ≡ p.ring }
    {
        match self.process(processor, slot) {
            Some(process) => process.ring(),
            None => Ring(0),
        }
    }

    /// Create, with the brackets as a number.
    fn create_by(
        &mut self,
        shared: &Shared,
        known: &Known,
        entry: u64,
        class: u64,
        brackets: u64,
        size: u64,
    ) -> Result<Shown<'static>, AllocError>
        requires { IsChild (classes shared.now) entry class brackets size }
        ensures ok { IfOk result (λ shown. Shows (create_effect (part_in self.old) known.now.seg entry class (brackets_of brackets) size) self.new shown) }
        ensures err { OnErr result (Stands self.new self.old) }
    {
        let table = shared.table();
        table.table_law();
        let Some(brackets) = brackets_from(brackets) else {
            return Ok(Shown::Refused(Rule::BadBrackets));
        };
        self.create(known.seg, entry as u8, class as u8, &brackets, size as u8)
    }

    /// Update, with words of the caller's pad.
    fn update_by(
        &mut self,
        known: &Known,
        offset: u64,
        count: u64,
        pad: u64,
        words: &[u64; 64],
    ) -> Result<Shown<'static>, AllocError>
        requires { InBounds known.now offset count pad }
        ensures ok { IfOk result (λ shown. Shows (update_effect (part_in self.old) known.now.seg offset (part_of words.now pad count)) self.new shown) }
        ensures err { OnErr result (Stands self.new self.old) }
    {
        let start = pad as usize;
        let end = start + count as usize;
        self.update(known.seg, offset, &words[start..end])
    }

    /// Carries out a request that looks at this part alone. NoMemory changes nothing.
    fn change(
        &mut self,
        alloc: Global,
        shared: &Shared,
        class: u8,
        words: &[u64; 64],
        request: &Request,
    ) -> Result<Shown<'static>, AllocError>
        requires class { class < classes shared.now }
        requires change { is_change request.now ≡ true }
        requires range { InRange (classes shared.now) request.now }
        ensures ok { IfOk result (λ shown. Shows (change_effect shared.now class (part_in self.old) words.now request.now) self.new shown) }
        ensures err { OnErr result (Stands self.new self.old) }
    {
        match *request {
            Request::Create {
                known,
                entry,
                class: child,
                brackets,
                size,
            } => self.create_by(shared, &known, entry, child, brackets, size),
            Request::Delete { known, entry } => self.delete(class, known.seg, entry as u8),
            Request::SwapIn(known) => self.swap_in(alloc, shared, class, &known),
            Request::SwapOut(known) => self.swap_out(alloc, shared, class, &known),
            Request::Update {
                known,
                offset,
                count,
                pad,
            } => self.update_by(&known, offset, count, pad, words),
            Request::Advance(known) => self.advance(known.class, known.seg),
            Request::Ticket(known) => self.ticket(known.seg),
            Request::Out(value) => self.out(shared.console(), value),
            _ => Ok(Shown::Refused(Rule::Gone)),
        }
    }

    /// Carries out a request of the process in a slot that looks at this part alone. NoMemory changes nothing.
    pub(crate) fn ask(
        &mut self,
        alloc: Global,
        shared: &Shared,
        class: u8,
        processor: u8,
        slot: u8,
        request: &Request,
    ) -> Result<(), AllocError>
        requires class { class < classes shared.now }
        requires processor { processor < 4 }
        requires slot { slot < 4 }
        requires change { is_change request.now ≡ true }
        requires range { InRange (classes shared.now) request.now }
        requires there { IfSome (slot_in self.old processor slot) (λ p. p.place < 256) }
        ensures ok { IfOk result (λ _. (p : Process) → slot_in self.old processor slot ≡ Some p →
            part_in self.new ≡ with_process (change_effect shared.now class (part_in self.old) p.pad request.now).part processor slot
            (settled p (change_effect shared.now class (part_in self.old) p.pad request.now).outcome)) }
        ensures err { OnErr result (Stands self.new self.old) }
    {
        let words = self.pad(processor, slot);
        match self.change(alloc, shared, class, &words, request) {
            Ok(shown) => {
                self.settle(processor, slot, &shown);
                Ok(())
            }
            Err(error) => Err(error),
        }
    }
}
