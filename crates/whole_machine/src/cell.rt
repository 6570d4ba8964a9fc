//! A cell.

ghost use Rattle.std.specs.Prelude.{◌≡◌, ◌+◌, ◌<◌, true, IfOk, OnErr, Some, None, is_some, is_none, unwrap_or, replicate, length, slice_index_or, slice_set};
ghost use Rattle.std.specs.Option.{option_map};
ghost use Rattle.lists.specs.Lists.{overwrite, part_of};
ghost use Rattle.class_model.specs.State.{Cell, Stored, In, Deleted, blank_cell, entry_at, has_entry, is_in, is_deleted, live_words};
ghost use Rattle.class_model.specs.Step.{with_entry};
ghost use Rattle.class_model.specs.Section.{home_name, never, shown_words, is_touched};
ghost use Rattle.whole_machine.specs.Building.{storing};

use class_model::write_over;
use std::alloc::{AllocError, Global};
use std::marker::Model;
use words_layout::Alias;

/// Where the words of a cell are.
#[derive(Drop)]
pub(crate) enum Whereabouts {
    Never,
    Stored,
    /// The live words.
    In(Vec<u64>),
    Deleted,
}

/// A cell: where its words are, its stored words, its count of writes, its sequencer and its eight entries.
#[derive(Drop)]
pub(crate) struct CellState {
    home: Whereabouts,
    stored: Option<Vec<u64>>,
    writes: u64,
    sequencer: u64,
    entries: [Option<Alias>; 8],
}

impl Model for CellState {
    ghost use Rattle.std.specs.Option.{option_map};
    ghost use Rattle.class_model.specs.State.{Cell};
    ghost use Rattle.whole_machine.specs.Cells.{home_of};

    ghost Value = { Cell };

    ghost view = { λ c. record { home = home_of c.home; stored = option_map (λ v. v.items) c.stored; writes = c.writes; sequencer = c.sequencer; entries = c.entries } };
}

/// An entry of a list of them. None where it is empty, or there is none of that number.
fn entry_among(entries: &[Option<Alias>], number: u64) -> Option<Alias>
    ensures { result ≡ slice_index_or entries.now number None }
{
    if number >= entries.len() as u64 {
        return None;
    }
    entries[number as usize]
}

impl CellState {
    /// A cell that nothing has touched.
    pub(crate) fn blank() -> CellState
        ensures { result ≡ blank_cell }
    {
        CellState {
            home: Whereabouts::Never,
            stored: None,
            writes: 0,
            sequencer: 0,
            entries: [None; 8],
        }
    }

    /// An entry. None where it is empty, or there is none of that number.
    pub(crate) fn entry(&self, number: u64) -> Option<Alias>
        ensures { result ≡ entry_at self.now number }
    {
        entry_among(&self.entries, number)
    }

    /// Whether some entry isn't empty.
    pub(crate) fn has_entry(&self) -> bool
        ensures { result ≡ has_entry self.now }
    {
        self.entries.iter().any(|entry| entry.is_some())
    }

    /// Whether its words are live.
    pub(crate) fn is_in(&self) -> bool
        ensures { result ≡ is_in self.now }
    {
        matches!(self.home, Whereabouts::In(_))
    }

    /// Whether it is deleted.
    pub(crate) fn is_deleted(&self) -> bool
        ensures { result ≡ is_deleted self.now }
    {
        matches!(self.home, Whereabouts::Deleted)
    }

    /// Whether it has stored words.
    pub(crate) fn has_stored(&self) -> bool
        ensures { result ≡ is_some self.now.stored }
    {
        self.stored.is_some()
    }

    /// Its live words, none where it has none.
    pub(crate) fn live_words(&self) -> &[u64]
        ensures { result.now ≡ live_words self.now }
    {
        match &self.home {
            Whereabouts::In(live) => live.as_slice(),
            _ => &[],
        }
    }

    /// Its home in a word.
    pub(crate) fn home_name(&self) -> &'static str
        ensures { result.now ≡ home_name self.now.home }
    {
        match &self.home {
            Whereabouts::Never => "never",
            Whereabouts::Stored => "stored",
            Whereabouts::In(_) => "in",
            Whereabouts::Deleted => "deleted",
        }
    }

    /// The words that are shown: the live ones where it is in, the stored ones where it is out.
    pub(crate) fn shown_words(&self) -> Option<&[u64]>
        ensures { option_map (λ v. v.now) result ≡ shown_words self.now.home self.now.stored }
    {
        match &self.home {
            Whereabouts::In(live) => Some(live.as_slice()),
            Whereabouts::Stored => match &self.stored {
                Some(words) => Some(words.as_slice()),
                None => None,
            },
            _ => None,
        }
    }

    /// Its eight entries.
    pub(crate) fn entries(&self) -> &[Option<Alias>; 8]
        ensures { result.now ≡ self.now.entries }
    {
        &self.entries
    }

    /// Whether its home is Never.
    fn is_never(&self) -> bool
        ensures { result ≡ never self.now.home }
    {
        matches!(self.home, Whereabouts::Never)
    }

    /// Whether it has been touched, where its eventcount is this.
    pub(crate) fn is_touched(&self, count: u64) -> bool
        ensures { result ≡ is_touched self.now count }
    {
        !self.is_never()
            || 0 < self.writes()
            || 0 < count
            || 0 < self.sequencer()
            || self.has_entry()
    }

    /// The number of writes.
    pub(crate) fn writes(&self) -> u64
        ensures { result ≡ self.now.writes }
    {
        self.writes
    }

    /// The next ticket.
    pub(crate) fn sequencer(&self) -> u64
        ensures { result ≡ self.now.sequencer }
    {
        self.sequencer
    }

    /// Changes an entry.
    pub(crate) fn set_entry(&mut self, number: u8, entry: Option<Alias>)
        requires { number < 8 }
        ensures { self.new ≡ with_entry self.old number entry }
    {
        self.entries[number as usize] = entry;
    }

    /// Has these words stored, if there are any.
    pub(crate) fn store(&mut self, kept: Option<Vec<u64>>)
        ensures { self.new ≡ storing (option_map (λ v. v.items) kept) self.old }
    {
        if let Some(words) = kept {
            self.stored = Some(words);
            self.home = Whereabouts::Stored;
        }
    }

    /// Is deleted; its live and stored words are lost.
    pub(crate) fn delete(&mut self)
        ensures { self.new ≡ record self.old { home = Deleted; stored = None } }
    {
        self.home = Whereabouts::Deleted;
        self.stored = None;
    }

    /// Its live words are now the stored ones, or zeros. NoMemory changes nothing.
    pub(crate) fn swap_in(&mut self, alloc: Global, size: u8) -> Result<(), AllocError>
        ensures ok { IfOk result (λ _. self.new ≡ record self.old { home = In (unwrap_or self.old.stored (replicate size 0)) }) }
        ensures err { OnErr result (self.new ≡ self.old) }
    {
        let live = match &self.stored {
            Some(words) => Vec::from_slice(alloc, words.as_slice())?,
            None => vec![in alloc; 0; size as usize]?,
        };
        self.home = Whereabouts::In(live);
        Ok(())
    }

    /// Its stored words are now the live ones. NoMemory changes nothing.
    pub(crate) fn swap_out(&mut self, alloc: Global) -> Result<(), AllocError>
        ensures ok { IfOk result (λ _. self.new ≡ record self.old { home = Stored; stored = Some (live_words self.old) }) }
        ensures err { OnErr result (self.new ≡ self.old) }
    {
        let words = Vec::from_slice(alloc, self.live_words())?;
        self.stored = Some(words);
        self.home = Whereabouts::Stored;
        Ok(())
    }

    /// Writes words over the live ones from a place on, and counts the write. Answers the count. NoMemory, also where
    /// the count would pass the greatest u64, changes nothing.
    pub(crate) fn update(&mut self, offset: u64, words: &[u64]) -> Result<u64, AllocError>
        requires { is_in self.old ≡ true }
        ensures ok { IfOk result (λ v. (v ≡ self.old.writes + 1)
            × (self.new ≡ record self.old { home = In (overwrite (live_words self.old) offset words.now); writes = self.old.writes + 1 })) }
        ensures err { OnErr result (self.new ≡ self.old) }
    {
        let Some(writes) = self.writes.checked_add(1) else {
            return Err(AllocError);
        };
        if let Whereabouts::In(live) = &mut self.home {
            write_over(live.as_mut_slice(), offset as usize, words);
        }
        self.writes = writes;
        Ok(writes)
    }

    /// Draws a ticket. NoMemory, which comes where the sequencer would pass the greatest u64, changes nothing.
    pub(crate) fn draw(&mut self) -> Result<u64, AllocError>
        ensures ok { IfOk result (λ v. (v ≡ self.old.sequencer) × (self.new ≡ record self.old { sequencer = self.old.sequencer + 1 })) }
        ensures err { OnErr result (self.new ≡ self.old) }
    {
        let ticket = self.sequencer;
        let Some(next) = ticket.checked_add(1) else {
            return Err(AllocError);
        };
        self.sequencer = next;
        Ok(ticket)
    }
}
