//! What a look or a turn goes by.

ghost use Rattle.std.specs.Prelude.{◌≡◌, ◌<◌};
ghost use Rattle.words_layout.specs.Words.{address, class_of, Started, Tickets, Finished};

use words_layout::{
    Addr, SegId, finished_addr, seg_finished_addr, seg_started_addr, seg_ticket_addr, started_addr,
    ticket_addr,
};

/// A class, or a segment with its class. Three words go with it: the turns started, the turn tickets and the turns
/// finished.
#[derive(Clone, Copy, Debug, PartialEq, Eq)]
pub enum Guard {
    Class(u8),
    Segment(u8, SegId),
}

impl Guard {
    ghost use Rattle.turns.specs.Parts.{IsGuard, guard_class, guard_name};

    /// The word of the turns started.
    pub fn started(&self) -> Addr
        requires { IsGuard self.now }
        ensures address { result.0 ≡ address (guard_class self.now) (Started (guard_name self.now)) }
        ensures class { class_of result.0 ≡ guard_class self.now }
    {
        match *self {
            Guard::Class(class) => started_addr(class),
            Guard::Segment(class, seg) => seg_started_addr(class, seg),
        }
    }

    /// The word of the turn tickets.
    pub fn ticket(&self) -> Addr
        requires { IsGuard self.now }
        ensures address { result.0 ≡ address (guard_class self.now) (Tickets (guard_name self.now)) }
        ensures class { class_of result.0 ≡ guard_class self.now }
    {
        match *self {
            Guard::Class(class) => ticket_addr(class),
            Guard::Segment(class, seg) => seg_ticket_addr(class, seg),
        }
    }

    /// The word of the turns finished.
    pub fn finished(&self) -> Addr
        requires { IsGuard self.now }
        ensures address { result.0 ≡ address (guard_class self.now) (Finished (guard_name self.now)) }
        ensures class { class_of result.0 ≡ guard_class self.now }
    {
        match *self {
            Guard::Class(class) => finished_addr(class),
            Guard::Segment(class, seg) => seg_finished_addr(class, seg),
        }
    }
}
