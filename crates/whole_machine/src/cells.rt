//! The list of the cells of a class.

ghost use Rattle.std.specs.Prelude.{◌≡◌, ◌+◌, ◌<◌, ◌≤◌, ◌++◌, ◌∷◌, [], true, IfOk, IfSome, OnErr, None, Some, length, position, replicate, unwrap_or};
ghost use Rattle.std.specs.Option.{option_map};
ghost use Rattle.lists.specs.Lists.{overwrite};
ghost use Rattle.words_layout.specs.declared.segment.SegId.{SegId};
ghost use Rattle.class_model.specs.State.{Cell, Stored, In, Deleted, blank_cell, is_in, live_words};
ghost use Rattle.class_model.specs.Step.{with_entry};
ghost use Rattle.whole_machine.specs.Building.{storing};
ghost use Rattle.whole_machine.specs.Parts.{Listed, is_cell, cell_in};
ghost use Rattle.whole_machine.specs.Pools.{under, uses_at};
ghost use Rattle.whole_machine.specs.Shows.{ListsAt, SameCells, KeepsPlaces, ChangesCell};

use crate::cell::CellState;
use crate::keyed::push_keyed;
use crate::pools::Pooled;
use crate::tally::recount;
use indexmap::IndexSet;
use std::alloc::{AllocError, Global};
use std::marker::Model;
use words_layout::{Alias, SegId};

/// A cell with its identity.
#[derive(Drop)]
struct ListedCell {
    seg: SegId,
    cell: CellState,
}

impl Model for ListedCell {
    ghost use Rattle.whole_machine.specs.Parts.{Listed};

    ghost Value = { Listed };

    ghost view = { λ l. record { seg = l.seg; cell = l.cell } };
}

/// The cells of a class, as they were listed one after the other, with the key of each, by which it is found. The numbers
/// say how many of those under mentors of each class use a frame, and how many a page.
#[derive(Drop)]
pub(crate) struct CellList {
    items: Vec<ListedCell>,
    keys: IndexSet<(u8, u8)>,
    frames: [u32; 16],
    pages: [u32; 16],
}

impl Model for CellList {
    ghost use Rattle.std.specs.Prelude.{List};
    ghost use Rattle.whole_machine.specs.Parts.{Listed};
    ghost use Rattle.whole_machine.specs.Pools.{IsKept};

    ghost Value = { List Listed };

    ghost view = { λ l. l.items.items };

    ghost invariant = { λ l. IsKept l.items.items l.keys.keys l.frames l.pages };
}

impl CellList {
    /// No cell is listed.
    pub(crate) fn new(alloc: Global) -> CellList
        ensures { result ≡ [] }
    {
        CellList {
            items: Vec::new(alloc),
            keys: IndexSet::new(alloc),
            frames: [0; 16],
            pages: [0; 16],
        }
    }

    /// Where the cell of an identity is listed first.
    fn place_of(&self, seg: SegId) -> Option<usize>
        ensures { result ≡ position (is_cell seg) self.now }
    {
        self.keys.get_index_of(&(seg.mentor, seg.serial))
    }

    /// The cell of an identity, if it is listed.
    pub(crate) fn find(&self, seg: SegId) -> Option<&CellState>
        ensures found { IfSome result (λ c. c.now ≡ cell_in self.now seg) }
        ensures none { result ≡ None → cell_in self.now seg ≡ blank_cell }
    {
        match self.place_of(seg) {
            Some(at) => Some(&self.items[at].cell),
            None => None,
        }
    }

    /// How many cells under mentors of a class use a frame, or a page.
    pub(crate) fn used_under(&self, kind: Pooled, mentor: u8) -> u32
        requires { mentor < 16 }
        ensures count { result ≡ under (uses_at kind self.now) mentor }
        ensures limit { result ≤ 64 }
    {
        match kind {
            Pooled::Frame => self.frames[mentor as usize],
            Pooled::Page => self.pages[mentor as usize],
        }
    }

    /// A blank cell of an identity that isn't listed is listed last. NoMemory changes nothing.
    fn push(&mut self, seg: SegId) -> Result<(), AllocError>
        requires { position (is_cell seg) self.old ≡ None }
        ensures ok { IfOk result (λ _. self.new ≡ self.old ++ record { seg = seg; cell = blank_cell } ∷ []) }
        ensures err { OnErr result (self.new ≡ self.old) }
    {
        let cell = CellState::blank();
        let item = ListedCell { seg, cell };
        push_keyed(
            &mut self.items,
            &mut self.keys,
            item,
            (seg.mentor, seg.serial),
        )
    }
}

/// Where the cell of an identity is listed; a blank one is listed where none was.
pub(crate) fn list_cell(cells: &mut CellList, seg: SegId) -> Result<usize, AllocError>
    ensures ok { IfOk result (λ at. ListsAt (is_cell seg) cells.new at) }
    ensures same { SameCells cells.old cells.new }
    ensures kept { KeepsPlaces cells.old cells.new }
{
    match cells.place_of(seg) {
        Some(at) => Ok(at),
        None => {
            let at = cells.items.len();
            cells.push(seg)?;
            Ok(at)
        }
    }
}

/// Changes an entry of the cell at a place.
pub(crate) fn set_entry(cells: &mut CellList, at: usize, number: u8, entry: Option<Alias>)
    requires inside { at < length cells.old }
    requires number { number < 8 }
    ensures changed { ChangesCell cells.old cells.new at (λ c. with_entry c number entry) }
    ensures kept { KeepsPlaces cells.old cells.new }
{
    let item = &mut cells.items[at];
    item.cell.set_entry(number, entry);
}

/// Stores words in the cell at a place, if there are any.
pub(crate) fn store(cells: &mut CellList, at: usize, kept: Option<Vec<u64>>)
    requires { at < length cells.old }
    ensures { ChangesCell cells.old cells.new at (storing (option_map (λ v. v.items) kept)) }
{
    let item = &mut cells.items[at];
    let seg = item.seg;
    let was_in = item.cell.is_in();
    let had_stored = item.cell.has_stored();
    item.cell.store(kept);
    let is_in = item.cell.is_in();
    let has_stored = item.cell.has_stored();
    recount(&mut cells.frames, seg, was_in, is_in);
    recount(&mut cells.pages, seg, had_stored, has_stored);
}

/// Deletes the cell at a place.
pub(crate) fn delete(cells: &mut CellList, at: usize)
    requires { at < length cells.old }
    ensures changed { ChangesCell cells.old cells.new at (λ c. record c { home = Deleted; stored = None }) }
    ensures kept { KeepsPlaces cells.old cells.new }
{
    let item = &mut cells.items[at];
    let seg = item.seg;
    let was_in = item.cell.is_in();
    let had_stored = item.cell.has_stored();
    item.cell.delete();
    recount(&mut cells.frames, seg, was_in, false);
    recount(&mut cells.pages, seg, had_stored, false);
}

/// Swaps in the cell at a place. NoMemory changes nothing.
pub(crate) fn swap_in(
    alloc: Global,
    cells: &mut CellList,
    at: usize,
    size: u8,
) -> Result<(), AllocError>
    requires { at < length cells.old }
    ensures ok { IfOk result (λ _. ChangesCell cells.old cells.new at (λ c. record c { home = In (unwrap_or c.stored (replicate size 0)) })) }
    ensures err { OnErr result (SameCells cells.old cells.new) }
{
    let item = &mut cells.items[at];
    let seg = item.seg;
    let was_in = item.cell.is_in();
    item.cell.swap_in(alloc, size)?;
    recount(&mut cells.frames, seg, was_in, true);
    Ok(())
}

/// Swaps out the cell at a place. NoMemory changes nothing.
pub(crate) fn swap_out(alloc: Global, cells: &mut CellList, at: usize) -> Result<(), AllocError>
    requires { at < length cells.old }
    ensures ok { IfOk result (λ _. ChangesCell cells.old cells.new at (λ c. record c { home = Stored; stored = Some (live_words c) })) }
    ensures err { OnErr result (SameCells cells.old cells.new) }
{
    let item = &mut cells.items[at];
    let seg = item.seg;
    let was_in = item.cell.is_in();
    let had_stored = item.cell.has_stored();
    item.cell.swap_out(alloc)?;
    recount(&mut cells.frames, seg, was_in, false);
    recount(&mut cells.pages, seg, had_stored, true);
    Ok(())
}

/// Writes words over the live ones of the cell at a place, and answers the count of writes. NoMemory changes nothing.
pub(crate) fn update(
    cells: &mut CellList,
    at: usize,
    offset: u64,
    words: &[u64],
) -> Result<u64, AllocError>
    requires inside { at < length cells.old }
    requires live { (u : SegId) × ListsAt (is_cell u) cells.old at × (is_in (cell_in cells.old u) ≡ true) }
    ensures ok { IfOk result (λ v. ChangesCell cells.old cells.new at (λ c. record c { home = In (overwrite (live_words c) offset words.now); writes = c.writes + 1 })) }
    ensures count { IfOk result (λ v. (u : SegId) → ListsAt (is_cell u) cells.old at → v ≡ (cell_in cells.old u).writes + 1) }
    ensures err { OnErr result (SameCells cells.old cells.new) }
{
    let item = &mut cells.items[at];
    let count = item.cell.update(offset, words)?;
    Ok(count)
}

/// Draws a ticket of the cell at a place. NoMemory changes nothing.
pub(crate) fn draw(cells: &mut CellList, at: usize) -> Result<u64, AllocError>
    requires { at < length cells.old }
    ensures ok { IfOk result (λ v. ChangesCell cells.old cells.new at (λ c. record c { sequencer = c.sequencer + 1 })) }
    ensures ticket { IfOk result (λ v. (u : SegId) → ListsAt (is_cell u) cells.old at → v ≡ (cell_in cells.old u).sequencer) }
    ensures err { OnErr result (SameCells cells.old cells.new) }
{
    let item = &mut cells.items[at];
    let ticket = item.cell.draw()?;
    Ok(ticket)
}
