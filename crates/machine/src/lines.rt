//! Console lines.

ghost use Rattle.std.specs.Prelude.{◌≡◌, ◌<◌, [], IfOk};
ghost use Rattle.machine.specs.Processing.{lines_with};

use std::alloc::{AllocError, Global};
use std::marker::Model;

/// Console lines, each by its place, and with room for a fixed number of them.
#[derive(Drop)]
pub struct Lines {
    pairs: Vec<(u32, u64)>,
    room: u32,
}

impl Model for Lines {
    ghost use Rattle.std.specs.Prelude.{◌≤◌, vec_len, vec_capacity};
    ghost use Rattle.machine.specs.Processing.{Console};

    ghost Value = { Console };

    ghost view = { λ l. record { pairs = l.pairs.items; room = l.room } };

    ghost invariant = { λ l. (l.room ≤ vec_capacity l.pairs) × (vec_len l.pairs ≤ l.room) };
}

impl Lines {
    /// No lines, and room for so many.
    pub fn new(alloc: Global, room: u32) -> Result<Lines, AllocError>
        ensures { IfOk result (λ l. l ≡ record { pairs = []; room = room }) }
    {
        let pairs = Vec::with_capacity(alloc, room as usize)?;
        Ok(Lines { pairs, room })
    }

    /// One line more, where there is room; one that finds none isn't kept.
    pub fn put(&mut self, place: u64, value: u64)
        requires { place < self.old.room }
        ensures { self.new ≡ record { pairs = lines_with self.old.room self.old.pairs place value; room = self.old.room } }
    {
        if self.pairs.len() < self.room as usize {
            self.pairs.push_reserved((place as u32, value));
        }
    }

    /// The lines, in the order in which they came.
    pub fn as_slice(&self) -> &[(u32, u64)]
        ensures { result.now ≡ self.now.pairs }
    {
        self.pairs.as_slice()
    }
}
