//! The turn of a class, in whose body the whole turn of a segment of the class may stand.

ghost use Rattle.std.specs.Prelude.{◌<◌};
ghost use Rattle.words_layout.specs.Limits.{IsIdentity};
ghost use Rattle.words_layout.specs.Sizes.{most_classes};

use crate::guard::Guard;
use crate::turn::{Turn, TurnPart, TurnStep};
use words_layout::{Op, SegId, finished_addr};

/// How far the turns are.
#[derive(Clone, Copy, Debug, PartialEq, Eq)]
pub enum NestedPart {
    /// The class's turn is at this part, and no segment's turn is begun.
    Outer(TurnPart),
    /// The class's turn is held with this ticket, and the segment's turn is at this part.
    Inner(u64, TurnPart),
    /// The segment's turn is over, and 1 is to be added to the class's turns finished.
    Leaving(u64),
}

/// Whose body is going on.
#[derive(Clone, Copy, Debug, PartialEq, Eq)]
pub enum Held {
    /// Neither turn's: the operations are those of the turns.
    Neither,
    /// That of the class's turn.
    Class,
    /// That of the segment's turn.
    Segment,
}

/// What an answer tells the turns.
#[derive(Clone, Copy, Debug, PartialEq, Eq)]
pub enum NestedStep {
    /// They go on.
    Going,
    /// An earlier turn isn't finished: the load is taken again.
    Poll,
    /// The class's turn has come: its body follows.
    Held,
    /// The segment's turn has come: its body follows.
    Entered,
    /// The segment's turn is over, and its instruction takes effect.
    Effect,
    /// The class's turn is over, with no segment's turn in it, and its instruction takes effect.
    Finished,
    /// The class's turn round a segment's turn is over.
    Over,
}

/// A turn of a class, and the turn of a segment in it.
#[derive(Clone, Copy, Debug, PartialEq, Eq)]
pub struct NestedTurn {
    class: u8,
    seg: SegId,
    part: NestedPart,
    ghost in_limits: { (class < most_classes) × IsIdentity seg },
}

impl NestedTurn {
    ghost use Rattle.std.specs.Prelude.{◌≡◌, ◌||◌, true, false};
    ghost use Rattle.words_layout.specs.Named.{op_at};
    ghost use Rattle.turns.specs.Classes.{NamesOnly};
    ghost use Rattle.turns.specs.Nest.{nested_first, in_outer, in_inner, is_class, is_segment, nested_entered, nested_closed, nested_asks, NestedRow};

    /// The turns of a class that are at the first part.
    pub fn new(class: u8) -> NestedTurn
        requires { class < most_classes }
        ensures class { result.class ≡ class }
        ensures part { result.part ≡ nested_first }
    {
        NestedTurn {
            class,
            seg: SegId {
                mentor: 0,
                serial: 0,
            },
            part: NestedPart::Outer(TurnPart::First),
        }
    }

    /// Whose body is going on, so that its operations are the caller's.
    pub fn held(&self) -> Held
        ensures class { in_outer self.now.part ≡ is_class result }
        ensures segment { in_inner self.now.part ≡ is_segment result }
    {
        match self.part {
            NestedPart::Outer(TurnPart::Held(_)) => Held::Class,
            NestedPart::Inner(_, TurnPart::Held(_)) => Held::Segment,
            _ => Held::Neither,
        }
    }

    /// The operation of the part.
    pub fn next_op(&self) -> Op
        requires { (in_outer self.now.part || in_inner self.now.part) ≡ false }
        ensures op { result ≡ op_at self.now.class (nested_asks self.now.class self.now.seg self.now.part) }
        ensures class { NamesOnly self.now.class result }
    {
        match self.part {
            NestedPart::Outer(part) => Turn::at(Guard::Class(self.class), part).next_op(),
            NestedPart::Inner(_, part) => {
                Turn::at(Guard::Segment(self.class, self.seg), part).next_op()
            }
            NestedPart::Leaving(_) => Op::Add(finished_addr(self.class), 1),
        }
    }

    /// Takes the answer to the operation of the part.
    pub fn absorb(&mut self, answer: u64) -> NestedStep
        requires { (in_outer self.old.part || in_inner self.old.part) ≡ false }
        ensures class { self.new.class ≡ self.old.class }
        ensures seg { self.new.seg ≡ self.old.seg }
        ensures row { NestedRow self.old.part answer result self.new.part }
    {
        match self.part {
            NestedPart::Outer(part) => {
                let mut turn = Turn::at(Guard::Class(self.class), part);
                let step = turn.absorb(answer);
                self.part = NestedPart::Outer(turn.part());
                match step {
                    TurnStep::Going => NestedStep::Going,
                    TurnStep::Poll => NestedStep::Poll,
                    TurnStep::Held => NestedStep::Held,
                    TurnStep::Finished => NestedStep::Finished,
                }
            }
            NestedPart::Inner(ticket, part) => {
                let mut turn = Turn::at(Guard::Segment(self.class, self.seg), part);
                let step = turn.absorb(answer);
                self.part = NestedPart::Inner(ticket, turn.part());
                match step {
                    TurnStep::Going => NestedStep::Going,
                    TurnStep::Poll => NestedStep::Poll,
                    TurnStep::Held => NestedStep::Entered,
                    TurnStep::Finished => {
                        self.part = NestedPart::Leaving(ticket);
                        NestedStep::Effect
                    }
                }
            }
            NestedPart::Leaving(_) => {
                self.part = NestedPart::Outer(TurnPart::First);
                NestedStep::Over
            }
        }
    }

    /// Begins the turn of a segment of the class in the body of the class's turn.
    pub fn enter(&mut self, seg: SegId)
        requires outer { in_outer self.old.part ≡ true }
        requires seg { IsIdentity seg }
        ensures class { self.new.class ≡ self.old.class }
        ensures seg { self.new.seg ≡ seg }
        ensures part { self.new.part ≡ nested_entered self.old.part }
    {
        self.seg = seg;
        if let NestedPart::Outer(TurnPart::Held(ticket)) = self.part {
            self.part = NestedPart::Inner(ticket, TurnPart::First);
        }
    }

    /// Ends the body that is going on.
    pub fn finish(&mut self)
        requires { (in_outer self.old.part || in_inner self.old.part) ≡ true }
        ensures class { self.new.class ≡ self.old.class }
        ensures seg { self.new.seg ≡ self.old.seg }
        ensures part { self.new.part ≡ nested_closed self.old.part }
    {
        match self.part {
            NestedPart::Outer(TurnPart::Held(ticket)) => {
                self.part = NestedPart::Outer(TurnPart::Last(ticket));
            }
            NestedPart::Inner(class_ticket, TurnPart::Held(ticket)) => {
                self.part = NestedPart::Inner(class_ticket, TurnPart::Last(ticket));
            }
            _ => {}
        }
    }
}
