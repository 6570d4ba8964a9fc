//! Seats on the shared words: all numbers in one, or dealt as ports to threads.

ghost use Rattle.std.specs.Prelude.{◌≡◌, ◌<◌, ◌≤◌, ◌/◌, ◌+◌, Some, None, length};
ghost use Rattle.shared_words.specs.Ports.{PortGains, Port, Whole, whole_of, first_view, port_at, with_port, AreOf};
ghost use Rattle.shared_words.specs.Views.{IsWhole, CanGive, one_left, one_given};
ghost use Rattle.words_layout.specs.Sizes.{class_words};

use crate::shared::SharedWords;
use crate::view::View;
use atomic_table::Seat;
use std::marker::Model;
use words_layout::{Op, WordPort};

/// The seat that holds all four numbers, 0 to 3, each with its list of entries: the operations that the seats of that
/// number performed, with their answers.
#[derive(Drop)]
pub struct WholeSeat {
    pub(crate) seat: Seat<u8, View>,
}

impl Model for WholeSeat {
    ghost use Rattle.std.specs.Prelude.{◌≡◌, [], map};
    ghost use Rattle.shared_words.specs.Ports.{Whole};
    ghost use Rattle.shared_words.specs.Views.{IsWhole, listed};

    ghost Value = { Whole };

    ghost view = { λ w. record { table = w.seat.table_id; round = w.seat.me.0.round; lists = map listed w.seat.me.0.held } };

    ghost invariant = { λ w. IsWhole w.seat.me.0 × (w.seat.me.1 ≡ []) };
}

impl WholeSeat {
    /// Gives so many ports, 1 to 4: the first has number 0 and keeps the numbers that aren't dealt for it, each other one
    /// has its own number.
    pub fn deal<'a>(self, shared: &'a SharedWords, count: u8) -> Seats<'a>
        requires count { (1 ≤ count) × (count ≤ 4) }
        requires table { self.table ≡ shared.now.table }
        ensures first { result.first ≡ record { words = shared.now; view = first_view count self } }
        ensures second { result.second ≡ port_at shared.now 1 count self }
        ensures third { result.third ≡ port_at shared.now 2 count self }
        ensures fourth { result.fourth ≡ port_at shared.now 3 count self }
        ensures four { length self.lists ≡ 4 }
    {
        let first = self.into_port(shared);
        if count == 1 {
            return first.deal_one();
        }
        if count == 2 {
            return first.deal_two();
        }
        if count == 3 {
            return first.deal_three();
        }
        first.deal_four()
    }

    fn into_port<'a>(self, shared: &'a SharedWords) -> SeatPort<'a>
        requires { self.table ≡ shared.now.table }
        ensures words { result.words ≡ shared.now }
        ensures whole { IsWhole result.view }
        ensures same { self ≡ whole_of shared.now.table result.view }
        ensures four { length self.lists ≡ 4 }
    {
        let WholeSeat { seat } = self;
        SeatPort { shared, seat }
    }

    /// Takes all ports of a deal in again.
    pub fn gather<'a>(shared: &'a SharedWords, seats: Seats<'a>) -> WholeSeat
        requires first { seats.first.words ≡ shared.now }
        requires second { AreOf shared.now seats.second }
        requires third { AreOf shared.now seats.third }
        requires fourth { AreOf shared.now seats.fourth }
        requires all { IsWhole (with_port (with_port (with_port seats.first.view seats.second) seats.third) seats.fourth) }
        ensures { result ≡ whole_of shared.now.table (with_port (with_port (with_port seats.entry.first.view seats.entry.second) seats.entry.third) seats.entry.fourth) }
    {
        let Seats {
            mut first,
            second,
            third,
            fourth,
        } = seats;
        first.take_in(second);
        first.take_in(third);
        first.take_in(fourth);
        first.into_whole()
    }

    /// Puts a mark into the order of the operations: what is performed before it stands before it, and what is performed
    /// afterwards behind it, in the next round.
    pub fn mark(&mut self, shared: &SharedWords)
        requires { self.old.table ≡ shared.now.table }
        ensures { self.new ≡ record { table = self.old.table; round = self.old.round + 1; lists = self.old.lists } }
    {
        shared.mark(&mut self.seat);
    }
}

/// One to four ports of the same shared words.
#[derive(Drop)]
pub struct Seats<'a> {
    pub first: SeatPort<'a>,
    pub second: Option<SeatPort<'a>>,
    pub third: Option<SeatPort<'a>>,
    pub fourth: Option<SeatPort<'a>>,
}

impl<'a> SeatPort<'a> {
    fn give(&mut self) -> SeatPort<'a>
        requires { CanGive self.old.view }
        ensures left { self.new ≡ record { words = self.old.words; view = one_left self.old.view } }
        ensures right { result ≡ record { words = self.old.words; view = one_given self.old.view } }
    {
        let shared = self.shared;
        let seat = shared.split(&mut self.seat);
        SeatPort { shared, seat }
    }

    fn deal_one(self) -> Seats<'a>
        ensures first { result.first ≡ self.entry }
        ensures second { result.second ≡ None }
        ensures third { result.third ≡ None }
        ensures fourth { result.fourth ≡ None }
    {
        Seats {
            first: self,
            second: None,
            third: None,
            fourth: None,
        }
    }

    #[tactic(auto, using(crate::proofs::Shapes::gives_one))]
    fn deal_two(mut self) -> Seats<'a>
        requires { IsWhole self.view }
        ensures first { result.first ≡ record { words = self.entry.words; view = one_left self.entry.view } }
        ensures second { result.second ≡ Some record { words = self.entry.words; view = one_given self.entry.view } }
        ensures third { result.third ≡ None }
        ensures fourth { result.fourth ≡ None }
    {
        let second = self.give();
        Seats {
            first: self,
            second: Some(second),
            third: None,
            fourth: None,
        }
    }

    #[tactic(auto, using(crate::proofs::Shapes::gives_one, crate::proofs::Shapes::gives_two))]
    fn deal_three(mut self) -> Seats<'a>
        requires { IsWhole self.view }
        ensures first { result.first ≡ record { words = self.entry.words; view = one_left (one_left self.entry.view) } }
        ensures second { result.second ≡ Some record { words = self.entry.words; view = one_given self.entry.view } }
        ensures third { result.third ≡ Some record { words = self.entry.words; view = one_given (one_left self.entry.view) } }
        ensures fourth { result.fourth ≡ None }
    {
        let second = self.give();
        let third = self.give();
        Seats {
            first: self,
            second: Some(second),
            third: Some(third),
            fourth: None,
        }
    }

    #[tactic(auto, using(crate::proofs::Shapes::gives_one, crate::proofs::Shapes::gives_two, crate::proofs::Shapes::gives_three))]
    fn deal_four(mut self) -> Seats<'a>
        requires { IsWhole self.view }
        ensures first { result.first ≡ record { words = self.entry.words; view = one_left (one_left (one_left self.entry.view)) } }
        ensures second { result.second ≡ Some record { words = self.entry.words; view = one_given self.entry.view } }
        ensures third { result.third ≡ Some record { words = self.entry.words; view = one_given (one_left self.entry.view) } }
        ensures fourth { result.fourth ≡ Some record { words = self.entry.words; view = one_given (one_left (one_left self.entry.view)) } }
    {
        let second = self.give();
        let third = self.give();
        let fourth = self.give();
        Seats {
            first: self,
            second: Some(second),
            third: Some(third),
            fourth: Some(fourth),
        }
    }

    fn take_in(&mut self, other: Option<SeatPort<'a>>)
        requires { AreOf self.old.words other }
        ensures { self.new ≡ record { words = self.old.words; view = with_port self.old.view other.entry } }
    {
        if let Some(other) = other {
            let shared = self.shared;
            let SeatPort { shared: _, seat } = other;
            shared.join(&mut self.seat, seat);
        }
    }

    fn into_whole(self) -> WholeSeat
        requires { IsWhole self.view }
        ensures { result ≡ whole_of self.entry.words.table self.entry.view }
    {
        let SeatPort { shared: _, seat } = self;
        WholeSeat { seat }
    }
}

/// A thread's port of the shared words. Each operation is one atomic step on its word: it takes no lock and waits for
/// nobody. The port's list of entries gains the operation with its answer, and no operation gains none.
#[derive(Drop)]
pub struct SeatPort<'a> {
    shared: &'a SharedWords,
    seat: Seat<u8, View>,
}

impl<'a> Model for SeatPort<'a> {
    ghost use Rattle.std.specs.Prelude.{◌≡◌, []};
    ghost use Rattle.shared_words.specs.Ports.{Port};
    ghost use Rattle.shared_words.specs.Views.{HasOwn};

    ghost Value = { Port };

    ghost view = { λ p. record { words = p.shared.now; view = p.seat.me.0 } };

    ghost invariant = { λ p. (p.seat.table_id ≡ p.shared.now.table) × (p.seat.me.1 ≡ []) × HasOwn p.seat.me.0 };
}

impl<'a> WordPort for SeatPort<'a> {
    ghost classes = { λ p. length p.words.words / class_words };

    ghost relation = { λ before op answer after. PortGains before op answer after };

    fn perform(&mut self, op: Op) -> u64 {
        let shared = self.shared;
        shared.perform(&mut self.seat, op)
    }
}
