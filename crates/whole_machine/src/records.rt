//! Records, put one after the other.

ghost use Rattle.std.specs.Prelude.{◌≡◌, ◌<◌, ℕ, true, IfOk, OnErr, length};
ghost use Rattle.std.specs.Option.{option_map};
ghost use Rattle.rings.specs.Brackets.{in_order};
ghost use Rattle.words_layout.specs.declared.segment.SegId.{SegId};
ghost use Rattle.policy.specs.Known.{alias_brackets};
ghost use Rattle.class_model.specs.Config.{classes};
ghost use Rattle.whole_machine.specs.Parts.{is_cell, part_in, state_of};
ghost use Rattle.whole_machine.specs.Fits.{part_of_class};
ghost use Rattle.whole_machine.specs.Building.{holding, keeping, with_record};
ghost use Rattle.whole_machine.specs.Shows.{Stands, ListsAt, KeepsPlaces};
ghost use Rattle.whole_machine.specs.Steps.{ChangesPart, SameParts, CellAt, KeepsCells};

use crate::cells::{list_cell, set_entry, store};
use crate::part::PartState;
use crate::state::ModelState;
use std::alloc::{AllocError, Global};
use words_layout::{Alias, SegId};

impl PartState {
    /// Where the cell of an identity is listed; a blank one is listed where none was.
    fn list(&mut self, seg: SegId) -> Result<usize, AllocError>
        ensures ok { IfOk result (λ at. ListsAt (is_cell seg) self.new.cells at) }
        ensures same { Stands self.new self.old }
        ensures kept { KeepsPlaces self.old.cells self.new.cells }
    {
        list_cell(&mut self.cells, seg)
    }

    /// An entry of the cell at a place takes a segment, and the next serial is above the segment's.
    fn hold(&mut self, at: usize, entry: u8, child: &Alias)
        requires inside { at < length self.old.cells }
        requires entry { entry < 8 }
        requires serial { child.now.serial < 64 }
        ensures held { (u : SegId) → ListsAt (is_cell u) self.old.cells at → part_in self.new ≡ holding (part_in self.old) u entry child.now }
        ensures kept { KeepsPlaces self.old.cells self.new.cells }
    {
        set_entry(&mut self.cells, at, entry, Some(*child));
        self.next_serial = self.next_serial.max(child.serial + 1);
    }

    /// The words that were kept are stored in the cell at a place, if they were.
    fn keep(&mut self, at: usize, kept: Option<Vec<u64>>)
        requires { at < length self.old.cells }
        ensures { (u : SegId) → ListsAt (is_cell u) self.old.cells at → part_in self.new ≡ keeping (part_in self.old) u (option_map (λ v. v.items) kept) }
    {
        store(&mut self.cells, at, kept);
    }
}

/// Where the cell of a class and an identity is listed; a blank one is listed where none was.
fn list_in(parts: &mut Vec<PartState>, class: u8, seg: SegId) -> Result<usize, AllocError>
    requires { class < length parts.old.items }
    ensures ok { IfOk result (λ at. CellAt parts.new.items class seg at) }
    ensures same { SameParts parts.old.items parts.new.items }
    ensures kept { KeepsCells parts.old.items parts.new.items }
{
    let part = &mut parts[class as usize];
    part.list(seg)
}

/// An entry of the cell at a place of the part of a class takes a segment.
fn hold_in(parts: &mut Vec<PartState>, class: u8, at: usize, entry: u8, child: &Alias)
    requires class { class < length parts.old.items }
    requires listed { (u : SegId) × CellAt parts.old.items class u at }
    requires entry { entry < 8 }
    requires serial { child.now.serial < 64 }
    ensures held { (u : SegId) → CellAt parts.old.items class u at →
        ChangesPart parts.old.items parts.new.items class (holding (part_of_class parts.old.items class) u entry child.now) }
    ensures kept { KeepsCells parts.old.items parts.new.items }
{
    let part = &mut parts[class as usize];
    part.hold(at, entry, child);
}

/// The words that were kept are stored in the cell at a place of the part of a class.
fn keep_in(parts: &mut Vec<PartState>, class: u8, at: usize, kept: Option<Vec<u64>>)
    requires class { class < length parts.old.items }
    requires listed { (u : SegId) × CellAt parts.old.items class u at }
    ensures { (u : SegId) → CellAt parts.old.items class u at →
        ChangesPart parts.old.items parts.new.items class (keeping (part_of_class parts.old.items class) u (option_map (λ v. v.items) kept)) }
{
    let part = &mut parts[class as usize];
    part.keep(at, kept);
}

impl ModelState {
    /// A segment stands in an entry of the cell of a class and an identity, and its kept words in its own cell. Its
    /// identity is of `mentor_class`, whose next serial is then above the segment's. NoMemory changes nothing.
    pub fn put_record(
        &mut self,
        mentor_class: u8,
        mentor: SegId,
        entry: u8,
        child: &Alias,
        kept: Option<Vec<u64>>,
    ) -> Result<(), AllocError>
        requires mentor { mentor_class < classes self.old.shared }
        requires class { child.now.class < classes self.old.shared }
        requires entry { entry < 8 }
        requires serial { child.now.serial < 64 }
        requires brackets { in_order (alias_brackets child.now) ≡ true }
        ensures shared { self.new.shared ≡ self.old.shared }
        ensures ok { IfOk result (λ _. state_of self.new ≡ with_record (state_of self.old) mentor_class mentor entry child.now (option_map (λ v. v.items) kept)) }
        ensures err { OnErr result (state_of self.new ≡ state_of self.old) }
    {
        let seg = SegId {
            mentor: mentor_class,
            serial: child.serial,
        };
        let at = list_in(&mut self.parts, mentor_class, mentor)?;
        let own = list_in(&mut self.parts, child.class, seg)?;
        hold_in(&mut self.parts, mentor_class, at, entry, child);
        keep_in(&mut self.parts, child.class, own, kept);
        Ok(())
    }
}
