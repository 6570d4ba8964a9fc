//! What is listed of a class.

ghost use Rattle.std.specs.Prelude.{◌≡◌, ◌<◌, IfOk, Some, None, length};
ghost use Rattle.class_model.specs.State.{Cell};
ghost use Rattle.whole_machine.specs.Parts.{Listed, ListedPart, cell_in, count_in, no_part};

use crate::cell::CellState;
use crate::cells::CellList;
use crate::counts::CountList;
use class_model::ProcessState;
use std::alloc::{AllocError, Global};
use std::marker::Model;
use words_layout::SegId;

/// What is listed of a class: its cells, its components, its next serial, its console lines with the places used,
/// and its sixteen slots, four for each processor.
#[derive(Drop)]
pub(crate) struct PartState {
    pub(crate) cells: CellList,
    pub(crate) counts: CountList,
    pub(crate) next_serial: u8,
    pub(crate) lines: Vec<u64>,
    pub(crate) used: u64,
    pub(crate) bank: Vec<Option<ProcessState>>,
    /// What stands for a cell that isn't listed.
    blank: CellState,
}

impl Model for PartState {
    ghost use Rattle.std.specs.Prelude.{◌≡◌, length};
    ghost use Rattle.class_model.specs.State.{blank_cell};
    ghost use Rattle.whole_machine.specs.Parts.{ListedPart};

    ghost Value = { ListedPart };

    ghost view = { λ p. record { cells = p.cells; counts = p.counts; next_serial = p.next_serial; lines = p.lines.items; used = p.used; bank = p.bank.items } };

    ghost invariant = { λ p. (length p.bank.items ≡ 16) × (p.blank ≡ blank_cell) };
}

impl PartState {
    /// The part of a class of which nothing is listed.
    pub(crate) fn new(alloc: Global) -> Result<PartState, AllocError>
        ensures { IfOk result (λ p. p ≡ no_part) }
    {
        let mut bank = Vec::new(alloc);
        for _ in 0..16usize {
            bank.push(None)?;
        }
        Ok(PartState {
            cells: CellList::new(alloc),
            counts: CountList::new(alloc),
            next_serial: 0,
            lines: Vec::new(alloc),
            used: 0,
            bank,
            blank: CellState::blank(),
        })
    }

    /// The console lines.
    pub(crate) fn lines(&self) -> &[u64]
        ensures { result.now ≡ self.now.lines }
    {
        self.lines.as_slice()
    }

    /// The cell of an identity.
    pub(crate) fn cell(&self, seg: SegId) -> &CellState
        ensures { result.now ≡ cell_in self.now.cells seg }
    {
        match self.cells.find(seg) {
            Some(cell) => cell,
            None => &self.blank,
        }
    }

    /// The component of this class of the eventcount of a cell of class `class`.
    pub(crate) fn count(&self, class: u8, seg: SegId) -> u64
        ensures { result ≡ count_in self.now.counts class seg }
    {
        self.counts.count(class, seg)
    }
}
