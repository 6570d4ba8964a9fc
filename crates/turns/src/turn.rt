//! The writer's turn: turns of a guard are taken one after the other, in the order of their tickets.

ghost use Rattle.turns.specs.Parts.{IsGuard};

use crate::guard::Guard;
use words_layout::Op;

/// How far a turn is. The number held is the ticket.
#[derive(Clone, Copy, Debug, PartialEq, Eq)]
pub enum TurnPart {
    /// To add 1 to the turns started.
    First,
    /// To draw a ticket.
    Second,
    /// To wait until as many turns are finished as the ticket says.
    Third(u64),
    /// The turn is held; the operations of the body are the caller's.
    Held(u64),
    /// To add 1 to the turns finished.
    Last(u64),
}

/// What an answer tells a turn.
#[derive(Clone, Copy, Debug, PartialEq, Eq)]
pub enum TurnStep {
    /// It goes on.
    Going,
    /// An earlier turn isn't finished: the load is taken again.
    Poll,
    /// Its turn has come: the body follows.
    Held,
    /// The turn is over. The next one may begin.
    Finished,
}

/// A turn of a guard.
#[derive(Clone, Copy, Debug, PartialEq, Eq)]
pub struct Turn {
    guard: Guard,
    part: TurnPart,
    ghost in_limits: { IsGuard guard },
}

impl Turn {
    ghost use Rattle.std.specs.Prelude.{◌≡◌, true, false};
    ghost use Rattle.turns.specs.Parts.{guard_class, turn_first, turn_asks, turn_goes, turn_tells, turn_closed, turn_is_held, TurnRow};
    ghost use Rattle.words_layout.specs.Named.{op_at};
    ghost use Rattle.turns.specs.Classes.{NamesOnly};

    /// A turn of the guard that is at its first part.
    pub fn new(guard: Guard) -> Turn
        requires { IsGuard guard }
        ensures guard { result.guard ≡ guard }
        ensures part { result.part ≡ turn_first }
    {
        Turn {
            guard,
            part: TurnPart::First,
        }
    }

    /// A turn of the guard at this part.
    pub fn at(guard: Guard, part: TurnPart) -> Turn
        requires { IsGuard guard }
        ensures guard { result.guard ≡ guard }
        ensures part { result.part ≡ part }
    {
        Turn { guard, part }
    }

    /// How far the turn is.
    pub fn part(&self) -> TurnPart
        ensures { result ≡ self.now.part }
    {
        self.part
    }

    /// The operation of the part.
    #[inline(always)]
    pub fn next_op(&self) -> Op
        requires { turn_is_held self.now.part ≡ false }
        ensures op { result ≡ op_at (guard_class self.now.guard) (turn_asks self.now.guard self.now.part) }
        ensures class { NamesOnly (guard_class self.now.guard) result }
    {
        match self.part {
            TurnPart::First => Op::Add(self.guard.started(), 1),
            TurnPart::Second => Op::Add(self.guard.ticket(), 1),
            TurnPart::Third(_) => Op::Load(self.guard.finished()),
            TurnPart::Held(_) => unreachable!(),
            TurnPart::Last(_) => Op::Add(self.guard.finished(), 1),
        }
    }

    /// Takes the answer to the operation of the part.
    pub fn absorb(&mut self, answer: u64) -> TurnStep
        requires { turn_is_held self.old.part ≡ false }
        ensures guard { self.new.guard ≡ self.old.guard }
        ensures part { self.new.part ≡ turn_goes self.old.part answer }
        ensures step { result ≡ turn_tells self.old.part answer }
        ensures row { TurnRow self.old.part answer result self.new.part }
    {
        match self.part {
            TurnPart::First => {
                self.part = TurnPart::Second;
                TurnStep::Going
            }
            TurnPart::Second => {
                self.part = TurnPart::Third(answer);
                TurnStep::Going
            }
            TurnPart::Third(ticket) if answer == ticket => {
                self.part = TurnPart::Held(ticket);
                TurnStep::Held
            }
            TurnPart::Third(_) => TurnStep::Poll,
            TurnPart::Held(_) => unreachable!(),
            TurnPart::Last(_) => {
                self.part = TurnPart::First;
                TurnStep::Finished
            }
        }
    }

    /// Ends the body.
    pub fn finish(&mut self)
        requires { turn_is_held self.old.part ≡ true }
        ensures guard { self.new.guard ≡ self.old.guard }
        ensures part { self.new.part ≡ turn_closed self.old.part }
    {
        if let TurnPart::Held(ticket) = self.part {
            self.part = TurnPart::Last(ticket);
        }
    }
}
