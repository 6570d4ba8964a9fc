//! What a request does to the part of the caller's class.

ghost use Rattle.std.specs.Prelude.{◌≡◌, ◌+◌, ◌<◌, ◌&&◌, ◌==◌, [], ◌∷◌, true, not, nat_le, IfOk, OnErr, None, Some, is_none, is_some, unwrap_or, replicate, if◌then◌else◌};
ghost use Rattle.rings.specs.Brackets.{Brackets};
ghost use Rattle.policy.specs.Known.{new_alias};
ghost use Rattle.policy.specs.Verdict.{first_broken, ◌⇒◌};
ghost use Rattle.policy.specs.declared.rule.Rule.{Rule};
ghost use Rattle.class_model.specs.Config.{Shared, pool_of};
ghost use Rattle.class_model.specs.State.{is_in, is_deleted, entry_at, has_entry, with_cell};
ghost use Rattle.class_model.specs.Step.{create_effect, delete_effect, swap_in_effect, swap_out_effect, update_effect, ticket_effect, advance_effect, out_effect, with_entry, deleted, emptied};
ghost use Rattle.whole_machine.specs.Parts.{cell_in, count_in, part_in};
ghost use Rattle.whole_machine.specs.Shows.{Shows, Stands, SameCells, KeepsPlaces, lost, with_child, with_words};

use crate::cells::{CellList, delete, draw, list_cell, set_entry, update};
use crate::part::PartState;
use class_model::Shown;
use policy::Rule;
use rings::Brackets;
use std::alloc::AllocError;
use words_layout::{Alias, SERIAL_LIMIT, SegId};

/// The alias of a new segment.
fn new_alias(class: u8, brackets: &Brackets, size: u8, serial: u8) -> Alias
    ensures { result ≡ new_alias class brackets.now size serial }
{
    Alias {
        class,
        r1: brackets.r1,
        r2: brackets.r2,
        r3: brackets.r3,
        size,
        serial,
    }
}

/// Where it is `own`, the cell of the child is deleted. NoMemory changes no cell.
fn lose(cells: &mut CellList, own: bool, child: SegId) -> Result<(), AllocError>
    ensures ok { IfOk result (λ _. cell_in cells.new ≡ lost own (cell_in cells.old) child) }
    ensures err { OnErr result (SameCells cells.old cells.new) }
    ensures kept { KeepsPlaces cells.old cells.new }
{
    if !own {
        return Ok(());
    }
    let at = list_cell(cells, child)?;
    delete(cells, at);
    Ok(())
}

impl PartState {
    /// The first refusal of `create` by the state.
    fn create_refusal(&self, seg: SegId, entry: u8) -> Option<Rule>
        ensures { result ≡ first_broken (
            (is_deleted (cell_in self.now.cells seg) ⇒ Rule.Gone) ∷
            (is_some (entry_at (cell_in self.now.cells seg) entry) ⇒ Rule.EntryTaken) ∷
            (nat_le 64 self.now.next_serial ⇒ Rule.SerialsUsed) ∷ []) }
    {
        let cell = self.cell(seg);
        if cell.is_deleted() {
            return Some(Rule::Gone);
        }
        if cell.entry(entry as u64).is_some() {
            return Some(Rule::EntryTaken);
        }
        if self.next_serial >= SERIAL_LIMIT {
            return Some(Rule::SerialsUsed);
        }
        None
    }

    /// The entry takes the new segment, and the next serial rises; the old one is answered. NoMemory changes nothing.
    fn add_child(
        &mut self,
        seg: SegId,
        entry: u8,
        class: u8,
        brackets: &Brackets,
        size: u8,
    ) -> Result<u8, AllocError>
        requires entry { entry < 8 }
        requires left { self.old.next_serial < 64 }
        ensures serial { IfOk result (λ serial. serial ≡ self.old.next_serial) }
        ensures ok { IfOk result (λ _. part_in self.new ≡ with_child (part_in self.old) seg entry class brackets.now size) }
        ensures err { OnErr result (Stands self.new self.old) }
    {
        let serial = self.next_serial;
        let alias = new_alias(class, brackets, size, serial);
        let at = list_cell(&mut self.cells, seg)?;
        set_entry(&mut self.cells, at, entry, Some(alias));
        self.next_serial = serial + 1;
        Ok(serial)
    }

    /// Create: the entry takes the new segment, and the next serial rises. NoMemory changes nothing.
    #[tactic(auto, using(crate::proofs::TakesPlace::refuses, crate::proofs::TakesPlace::takes_place, crate::proofs::TakesPlace::serials_left))]
    pub(crate) fn create(
        &mut self,
        seg: SegId,
        entry: u8,
        class: u8,
        brackets: &Brackets,
        size: u8,
    ) -> Result<Shown<'static>, AllocError>
        requires { entry < 8 }
        ensures ok { IfOk result (λ shown. Shows (create_effect (part_in self.old) seg entry class brackets.now size) self.new shown) }
        ensures err { OnErr result (Stands self.new self.old) }
    {
        match self.create_refusal(seg, entry) {
            Some(rule) => Ok(Shown::Refused(rule)),
            None => {
                let serial = self.add_child(seg, entry, class, brackets, size)?;
                Ok(Shown::Value(serial as u64))
            }
        }
    }

    /// Ticket: the sequencer rises, and the old number is shown. NoMemory, also where the number would pass the greatest
    /// u64, changes nothing.
    pub(crate) fn ticket(&mut self, seg: SegId) -> Result<Shown<'static>, AllocError>
        ensures ok { IfOk result (λ shown. Shows (ticket_effect (part_in self.old) seg) self.new shown) }
        ensures err { OnErr result (Stands self.new self.old) }
    {
        let at = list_cell(&mut self.cells, seg)?;
        let ticket = draw(&mut self.cells, at)?;
        Ok(Shown::Value(ticket))
    }

    /// Out: a place is used up even where the console is full. NoMemory, also where no place is left below the greatest
    /// u64, changes nothing.
    pub(crate) fn out(&mut self, console: u32, value: u64) -> Result<Shown<'static>, AllocError>
        ensures ok { (s : Shared) → s.console ≡ console → IfOk result (λ shown. Shows (out_effect s (part_in self.old) value) self.new shown) }
        ensures err { OnErr result (Stands self.new self.old) }
    {
        let place = self.used;
        let Some(used) = place.checked_add(1) else {
            return Err(AllocError);
        };
        if place >= console as u64 {
            self.used = used;
            return Ok(Shown::Refused(Rule::ConsoleFull));
        }
        self.lines.push(value)?;
        self.used = used;
        Ok(Shown::Printed { place, value })
    }

    /// Delete: a child of this class is deleted, one of a higher class is left as it is, and the entry is emptied.
    /// NoMemory changes nothing.
    pub(crate) fn delete(
        &mut self,
        class: u8,
        seg: SegId,
        entry: u8,
    ) -> Result<Shown<'static>, AllocError>
        requires { entry < 8 }
        ensures ok { IfOk result (λ shown. Shows (delete_effect class (part_in self.old) seg entry (entry_at (cell_in self.old.cells seg) entry)) self.new shown) }
        ensures err { OnErr result (Stands self.new self.old) }
    {
        match self.cell(seg).entry(entry as u64) {
            None => Ok(Shown::Refused(Rule::NoEntry)),
            Some(alias) => self.delete_entry(class, seg, entry, alias),
        }
    }

    /// The refusal of `delete` by the state, where the child may be of this class.
    fn delete_refusal(&self, own: bool, child: SegId) -> Option<Rule>
        ensures { result ≡ first_broken ((own && has_entry (cell_in self.now.cells child) ⇒ Rule.NotEmpty) ∷ []) }
    {
        if own && self.cell(child).has_entry() {
            return Some(Rule::NotEmpty);
        }
        None
    }

    /// The entry is emptied, and the child is deleted where it is of this class. NoMemory changes nothing.
    fn remove_entry(
        &mut self,
        own: bool,
        child: SegId,
        seg: SegId,
        entry: u8,
    ) -> Result<(), AllocError>
        requires { entry < 8 }
        ensures ok { IfOk result (λ _. part_in self.new ≡ emptied (if own then deleted (part_in self.old) child else part_in self.old) seg entry) }
        ensures err { OnErr result (Stands self.new self.old) }
    {
        let at = list_cell(&mut self.cells, seg)?;
        lose(&mut self.cells, own, child)?;
        set_entry(&mut self.cells, at, entry, None);
        Ok(())
    }

    /// Likewise, where the entry holds this.
    #[tactic(auto, using(crate::proofs::TakesPlace::refuses, crate::proofs::TakesPlace::takes_place))]
    fn delete_entry(
        &mut self,
        class: u8,
        seg: SegId,
        entry: u8,
        alias: Alias,
    ) -> Result<Shown<'static>, AllocError>
        requires { entry < 8 }
        ensures ok { IfOk result (λ shown. Shows (delete_effect class (part_in self.old) seg entry (Some alias)) self.new shown) }
        ensures err { OnErr result (Stands self.new self.old) }
    {
        let own = alias.class == class;
        let child = SegId {
            mentor: class,
            serial: alias.serial,
        };
        match self.delete_refusal(own, child) {
            Some(rule) => Ok(Shown::Refused(rule)),
            None => {
                self.remove_entry(own, child, seg, entry)?;
                Ok(Shown::Value(0))
            }
        }
    }

    /// The refusal of words that aren't live.
    pub(crate) fn words_refusal(&self, seg: SegId) -> Option<Rule>
        ensures { result ≡ first_broken (
            (is_deleted (cell_in self.now.cells seg) ⇒ Rule.Gone) ∷ (not (is_in (cell_in self.now.cells seg)) ⇒ Rule.NotIn) ∷ []) }
    {
        let cell = self.cell(seg);
        if cell.is_deleted() {
            return Some(Rule::Gone);
        }
        if !cell.is_in() {
            return Some(Rule::NotIn);
        }
        None
    }

    /// Words are written over the live ones, and the count of writes rises, which is answered. NoMemory changes nothing.
    fn write_words(&mut self, seg: SegId, offset: u64, words: &[u64]) -> Result<u64, AllocError>
        requires { is_in (cell_in self.old.cells seg) ≡ true }
        ensures count { IfOk result (λ count. count ≡ (cell_in self.old.cells seg).writes + 1) }
        ensures ok { IfOk result (λ _. part_in self.new ≡ with_words (part_in self.old) seg offset words.now) }
        ensures err { OnErr result (Stands self.new self.old) }
    {
        let at = list_cell(&mut self.cells, seg)?;
        let count = update(&mut self.cells, at, offset, words)?;
        Ok(count)
    }

    /// Update: words over the live ones, and the count of writes rises. NoMemory, also where the count would pass the
    /// greatest u64, changes nothing.
    #[tactic(auto, using(crate::proofs::TakesPlace::refuses, crate::proofs::TakesPlace::takes_place, crate::proofs::TakesPlace::words_are_in))]
    pub(crate) fn update(
        &mut self,
        seg: SegId,
        offset: u64,
        words: &[u64],
    ) -> Result<Shown<'static>, AllocError>
        ensures ok { IfOk result (λ shown. Shows (update_effect (part_in self.old) seg offset words.now) self.new shown) }
        ensures err { OnErr result (Stands self.new self.old) }
    {
        match self.words_refusal(seg) {
            Some(rule) => Ok(Shown::Refused(rule)),
            None => {
                let count = self.write_words(seg, offset, words)?;
                Ok(Shown::Value(count))
            }
        }
    }
}
