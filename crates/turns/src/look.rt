//! The reader's look: what it read between two loads of the same number of turns started, with none under way at
//! the first, no turn has changed meanwhile.

ghost use Rattle.turns.specs.Parts.{IsGuard};

use crate::guard::Guard;
use words_layout::Op;

/// How far a look is. The number held is that of the turns started at the first part.
#[derive(Clone, Copy, Debug, PartialEq, Eq)]
pub enum LookPart {
    /// To load the turns started.
    First,
    /// To load the turns finished.
    Second(u64),
    /// The loads of the body are the caller's.
    Body(u64),
    /// To load the turns started once more.
    Last(u64),
}

/// What an answer tells a look.
#[derive(Clone, Copy, Debug, PartialEq, Eq)]
pub enum LookStep {
    /// It goes on.
    Going,
    /// A turn is under way or was taken meanwhile: the look starts again, with nothing kept.
    Poll,
    /// No turn was under way: the body follows.
    Body,
    /// No turn was begun meanwhile: what the body loaded holds. The next look may begin.
    Accepted,
}

/// A look at a guard.
#[derive(Clone, Copy, Debug, PartialEq, Eq)]
pub struct Look {
    guard: Guard,
    part: LookPart,
    ghost in_limits: { IsGuard guard },
}

impl Look {
    ghost use Rattle.std.specs.Prelude.{◌≡◌, true, false};
    ghost use Rattle.turns.specs.Parts.{guard_class, look_first, look_asks, look_goes, look_tells, look_checked, look_in_body, LookRow};
    ghost use Rattle.words_layout.specs.Named.{op_at};
    ghost use Rattle.turns.specs.Classes.{LoadsOnly};

    /// A look at the guard that is at its first part.
    pub fn new(guard: Guard) -> Look
        requires { IsGuard guard }
        ensures guard { result.guard ≡ guard }
        ensures part { result.part ≡ look_first }
    {
        Look {
            guard,
            part: LookPart::First,
        }
    }

    /// Whether the operations are the caller's.
    pub fn in_body(&self) -> bool
        ensures { result ≡ look_in_body self.now.part }
    {
        match self.part {
            LookPart::Body(_) => true,
            _ => false,
        }
    }

    /// The operation of the part.
    #[inline(always)]
    pub fn next_op(&self) -> Op
        requires { look_in_body self.now.part ≡ false }
        ensures op { result ≡ op_at (guard_class self.now.guard) (look_asks self.now.guard self.now.part) }
        ensures class { LoadsOnly (guard_class self.now.guard) result }
    {
        match self.part {
            LookPart::First => Op::Load(self.guard.started()),
            LookPart::Second(_) => Op::Load(self.guard.finished()),
            LookPart::Body(_) => unreachable!(),
            LookPart::Last(_) => Op::Load(self.guard.started()),
        }
    }

    /// Takes the answer to the operation of the part.
    pub fn absorb(&mut self, answer: u64) -> LookStep
        requires { look_in_body self.old.part ≡ false }
        ensures guard { self.new.guard ≡ self.old.guard }
        ensures part { self.new.part ≡ look_goes self.old.part answer }
        ensures step { result ≡ look_tells self.old.part answer }
        ensures row { LookRow self.old.part answer result self.new.part }
    {
        match self.part {
            LookPart::First => {
                self.part = LookPart::Second(answer);
                LookStep::Going
            }
            LookPart::Second(started) if answer == started => {
                self.part = LookPart::Body(started);
                LookStep::Body
            }
            LookPart::Second(_) => {
                self.part = LookPart::First;
                LookStep::Poll
            }
            LookPart::Body(_) => unreachable!(),
            LookPart::Last(started) => {
                self.part = LookPart::First;
                if answer == started {
                    LookStep::Accepted
                } else {
                    LookStep::Poll
                }
            }
        }
    }

    /// Ends the body.
    pub fn check(&mut self)
        requires { look_in_body self.old.part ≡ true }
        ensures guard { self.new.guard ≡ self.old.guard }
        ensures part { self.new.part ≡ look_checked self.old.part }
    {
        if let LookPart::Body(started) = self.part {
            self.part = LookPart::Last(started);
        }
    }
}
