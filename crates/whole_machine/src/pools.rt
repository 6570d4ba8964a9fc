//! How many frames and pages of a class are in use, and what swaps words.

ghost use Rattle.std.specs.Prelude.{◌≡◌, ◌<◌, ◌&&◌, [], ◌∷◌, true, not, nat_le, length, IfOk, OnErr, None, Some, is_none};
ghost use Rattle.policy.specs.Verdict.{first_broken, ◌⇒◌};
ghost use Rattle.policy.specs.declared.rule.Rule.{Rule};
ghost use Rattle.class_model.specs.Config.{classes, pool_of};
ghost use Rattle.class_model.specs.State.{is_in, is_deleted, frames_in_use, pages_in_use};
ghost use Rattle.class_model.specs.Step.{swap_in_effect, swap_out_effect};
ghost use Rattle.whole_machine.specs.Parts.{cell_in, part_in};
ghost use Rattle.whole_machine.specs.Pools.{in_use};
ghost use Rattle.whole_machine.specs.Shows.{Shows, Stands, swapped_in, swapped_out};

use crate::cells::{list_cell, swap_in, swap_out};
use crate::part::PartState;
use class_model::{Shared, Shown};
use policy::{Known, Rule};
use std::alloc::{AllocError, Global};
use words_layout::SegId;

/// What a class has a number of.
#[derive(Clone, Copy, Debug, PartialEq, Eq)]
pub(crate) enum Pooled {
    Frame,
    Page,
}

impl PartState {
    /// How many cells use one.
    #[tactic(auto, using(crate::proofs::Counting::mentors_counted))]
    fn in_use(&self, kind: Pooled, shared: &Shared) -> u32
        ensures { result ≡ in_use kind self.now.cells (classes shared.now) }
    {
        let table = shared.table();
        table.table_law();
        let mut count = 0;
        for mentor in 0..table.count() {
            count += self.cells.used_under(kind, mentor);
        }
        count
    }

    /// The refusal of `swapin` by the state.
    fn swap_in_refusal(&self, shared: &Shared, class: u8, seg: SegId) -> Option<Rule>
        requires { class < classes shared.now }
        ensures { result ≡ first_broken (
            (is_deleted (cell_in self.now.cells seg) ⇒ Rule.Gone) ∷
            (is_in (cell_in self.now.cells seg) ⇒ Rule.AlreadyIn) ∷
            (nat_le (pool_of shared.now class).frames (frames_in_use shared.now (part_in self.now)) ⇒ Rule.NoFrame) ∷ []) }
    {
        let cell = self.cell(seg);
        if cell.is_deleted() {
            return Some(Rule::Gone);
        }
        if cell.is_in() {
            return Some(Rule::AlreadyIn);
        }
        let used = self.in_use(Pooled::Frame, shared);
        let pool = shared.pool(class);
        if pool.frames as u32 <= used {
            return Some(Rule::NoFrame);
        }
        None
    }

    /// The refusal of `swapout` by the state.
    fn swap_out_refusal(&self, shared: &Shared, class: u8, seg: SegId) -> Option<Rule>
        requires { class < classes shared.now }
        ensures { result ≡ first_broken (
            (is_deleted (cell_in self.now.cells seg) ⇒ Rule.Gone) ∷
            (not (is_in (cell_in self.now.cells seg)) ⇒ Rule.NotIn) ∷
            (is_none (cell_in self.now.cells seg).stored && nat_le (pool_of shared.now class).pages (pages_in_use shared.now (part_in self.now)) ⇒ Rule.NoPage) ∷ []) }
    {
        let cell = self.cell(seg);
        if cell.is_deleted() {
            return Some(Rule::Gone);
        }
        if !cell.is_in() {
            return Some(Rule::NotIn);
        }
        let used = self.in_use(Pooled::Page, shared);
        let pool = shared.pool(class);
        if !cell.has_stored() && pool.pages as u32 <= used {
            return Some(Rule::NoPage);
        }
        None
    }

    /// The live words are the stored words, or zeros. NoMemory changes nothing.
    fn bring_in(&mut self, alloc: Global, known: &Known) -> Result<(), AllocError>
        ensures ok { IfOk result (λ _. part_in self.new ≡ swapped_in (part_in self.old) known.now) }
        ensures err { OnErr result (Stands self.new self.old) }
    {
        let at = list_cell(&mut self.cells, known.seg)?;
        swap_in(alloc, &mut self.cells, at, known.size)?;
        Ok(())
    }

    /// The stored words are the live words. NoMemory changes nothing.
    fn put_out(&mut self, alloc: Global, known: &Known) -> Result<(), AllocError>
        ensures ok { IfOk result (λ _. part_in self.new ≡ swapped_out (part_in self.old) known.now) }
        ensures err { OnErr result (Stands self.new self.old) }
    {
        let at = list_cell(&mut self.cells, known.seg)?;
        swap_out(alloc, &mut self.cells, at)?;
        Ok(())
    }

    /// Swap in. NoMemory changes nothing.
    #[tactic(auto, using(crate::proofs::TakesPlace::refuses, crate::proofs::TakesPlace::takes_place))]
    pub(crate) fn swap_in(
        &mut self,
        alloc: Global,
        shared: &Shared,
        class: u8,
        known: &Known,
    ) -> Result<Shown<'static>, AllocError>
        requires { class < classes shared.now }
        ensures ok { IfOk result (λ shown. Shows (swap_in_effect shared.now class (part_in self.old) known.now) self.new shown) }
        ensures err { OnErr result (Stands self.new self.old) }
    {
        match self.swap_in_refusal(shared, class, known.seg) {
            Some(rule) => Ok(Shown::Refused(rule)),
            None => {
                self.bring_in(alloc, known)?;
                Ok(Shown::Value(0))
            }
        }
    }

    /// Swap out. NoMemory changes nothing.
    #[tactic(auto, using(crate::proofs::TakesPlace::refuses, crate::proofs::TakesPlace::takes_place))]
    pub(crate) fn swap_out(
        &mut self,
        alloc: Global,
        shared: &Shared,
        class: u8,
        known: &Known,
    ) -> Result<Shown<'static>, AllocError>
        requires { class < classes shared.now }
        ensures ok { IfOk result (λ shown. Shows (swap_out_effect shared.now class (part_in self.old) known.now) self.new shown) }
        ensures err { OnErr result (Stands self.new self.old) }
    {
        match self.swap_out_refusal(shared, class, known.seg) {
            Some(rule) => Ok(Shown::Refused(rule)),
            None => {
                self.put_out(alloc, known)?;
                Ok(Shown::Value(0))
            }
        }
    }
}
