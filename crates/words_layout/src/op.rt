//! Word operations, what performs them, and events.

ghost use Rattle.std.specs.Prelude.{◌≡◌, ℕ};

use crate::address::Addr;

/// One word operation, or none.
#[derive(Clone, Copy, Debug, PartialEq, Eq)]
pub enum Op {
    /// No word is touched; the answer is 0.
    Nothing,
    /// The answer is the word.
    Load(Addr),
    /// The word becomes the number; the answer is 0.
    Store(Addr, u64),
    /// The number is added to the word modulo 2^64; the answer is the word before.
    Add(Addr, u64),
}

/// One step of the virtual processor of a class on a processor.
#[derive(Clone, Copy, Debug, PartialEq, Eq)]
pub struct Event {
    pub processor: u8,
    pub class: u8,
}

/// What performs operations on words, each at once. The layout of a port is that of a number of classes,
/// which no call changes. What an operation does is a relation of the port's own, between the port before,
/// the operation, the answer and the port after.
pub trait WordPort {
    ghost use Rattle.words_layout.specs.declared.op.Op.{Op};
    ghost use Rattle.words_layout.specs.Ops.{IsWithin, IsPlain};

    /// The number of classes of the layout.
    ghost classes: { Self → ℕ };

    /// What one operation does: of the port before, the operation, the answer and the port after.
    ghost relation: { Self → Op → ℕ → Self → Type 0 };

    /// Performs one operation on a word of the layout. A store and no operation answer 0, and no operation
    /// leaves the port as it was.
    fn perform(&mut self, op: Op) -> u64
        requires { IsWithin (classes self.old) op }
        ensures related { relation self.old op result self.new }
        ensures layout { classes self.new ≡ classes self.old }
        ensures plain { IsPlain op result }
        ensures still { op ≡ Op.Nothing → self.new ≡ self.old };
}
