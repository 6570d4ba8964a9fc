//! The shared words: begun, stepped on and closed.

ghost use Rattle.std.specs.Prelude.{◌≡◌, ◌<◌, ◌/◌, IfOk, [], ◌∷◌, length, List, Some, None};
ghost use Rattle.shared_words.specs.Views.{opening, own, gains, second, with_held, alone, both, IsWhole, CanGive, later};
ghost use Rattle.std.specs.Slots.{slots_items, slots_len, IsFull};
ghost use Rattle.shared_words.specs.Ports.{Ordered, Whole};
ghost use Rattle.words_layout.specs.Sizes.{class_words};
ghost use Rattle.words_layout.specs.Ops.{IsWithin, IsPlain};

use crate::plays::{Adds, Gives, Loads, Marks, OneOrder, Stores, Takes};
use crate::seats::WholeSeat;
use crate::view::View;
use atomic_table::{Closed, Seat, Table};
use std::alloc::{AllocError, Global};
use std::marker::Model;
use words_layout::{Addr, CLASS_WORDS, Op, PlainWords, WordPort};

pub(crate) type Words = Table<u8, View, PlainWords, OneOrder, Global>;

/// Words of 1 to 16 classes that threads share. Contracts see which they are, and the words at the start.
#[derive(Drop)]
pub struct SharedWords {
    pub(crate) table: Words,
}

impl Model for SharedWords {
    ghost use Rattle.std.specs.Prelude.{◌≡◌, ◌<◌, length};
    ghost use Rattle.shared_words.specs.Ports.{Opened};

    ghost Value = { Opened };

    ghost view = { λ s. record { table = s.table.shared.table_id; words = s.table.shared.key } };

    ghost invariant = { λ s. (s.table.shared.table_id.words ≡ length s.table.shared.key) × (0 < length s.table.shared.key) × (s.table.shared.table_id.slots ≡ 0) };
}

impl SharedWords {
    /// Words to be shared that begin as these do, and the seat that holds all four numbers, in round 0 and with no
    /// entries. It takes the memory for all the words; no other call takes any.
    pub fn begin(alloc: Global, words: &PlainWords) -> Result<(SharedWords, WholeSeat), AllocError>
        ensures words { IfOk result (λ r. r.0.words ≡ words.now) }
        ensures seat { IfOk result (λ r. r.1 ≡ record { table = r.0.table; round = 0; lists = [] ∷ [] ∷ [] ∷ [] ∷ [] }) }
    {
        let _classes = words.classes();
        let (table, seat) = Table::of_words(alloc, words.as_slice(), words)?;
        Ok((SharedWords { table }, WholeSeat { seat }))
    }

    // One atomic step of the seat, or none.
    pub(crate) fn perform(&self, seat: &mut Seat<u8, View>, op: Op) -> u64
        requires table { seat.old.table_id ≡ self.now.table }
        requires holds { own seat.old.me.0 < 4 }
        requires within { IsWithin (length self.now.words / class_words) op }
        ensures table { seat.new.table_id ≡ seat.old.table_id }
        ensures gains { seat.new.me ≡ (gains seat.old.me.0 op result, seat.old.me.1) }
        ensures plain { IsPlain op result }
    {
        match op {
            Op::Nothing => 0,
            Op::Load(addr) => self.table.shared.load::<Loads>(seat, addr.0 as usize),
            Op::Store(addr, x) => {
                self.table.shared.store::<Stores>(seat, addr.0 as usize, x);
                0
            }
            Op::Add(addr, x) => self
                .table
                .shared
                .fetch_add::<Adds>(seat, addr.0 as usize, x),
        }
    }

    // The seat gives the second of its numbers to a new seat.
    pub(crate) fn split(&self, seat: &mut Seat<u8, View>) -> Seat<u8, View>
        requires table { seat.old.table_id ≡ self.now.table }
        requires holds { CanGive seat.old.me.0 }
        ensures tables { (seat.new.table_id ≡ seat.old.table_id) × (result.table_id ≡ seat.old.table_id) }
        ensures left { seat.new.me ≡ (with_held seat.old.me.0 (second seat.old.me.0) None, seat.old.me.1) }
        ensures right { result.me ≡ (alone seat.old.me.0 (second seat.old.me.0), []) }
    {
        self.table.shared.split_seat::<Gives>(seat)
    }

    // The seat takes in the numbers of another.
    pub(crate) fn join(&self, seat: &mut Seat<u8, View>, other: Seat<u8, View>)
        requires tables { (seat.old.table_id ≡ self.now.table) × (other.table_id ≡ self.now.table) }
        requires holds { (own seat.old.me.0 < 4) × (other.me.1 ≡ []) }
        ensures table { seat.new.table_id ≡ seat.old.table_id }
        ensures both { seat.new.me ≡ (both seat.old.me.0 other.me.0, seat.old.me.1) }
    {
        self.table.shared.join_seat::<Takes>(seat, other);
    }

    // A mark in the order.
    pub(crate) fn mark(&self, seat: &mut Seat<u8, View>)
        requires table { seat.old.table_id ≡ self.now.table }
        requires whole { IsWhole seat.old.me.0 }
        ensures table { seat.new.table_id ≡ seat.old.table_id }
        ensures later { seat.new.me ≡ (later seat.old.me.0, seat.old.me.1) }
    {
        self.table.shared.load::<Marks>(seat, 0);
    }
}

/// Writes into `into` what the shared words are, as many words as there were at the start. They are the words at the
/// start after one list of operations: each answer in it is what its operation gives on the words that the operations
/// before it leave, the operations of each number are those of that number's seats, in their order, and those of a
/// round stand before the mark that ends the round.
pub fn close(shared: SharedWords, whole: WholeSeat, into: &mut PlainWords)
    requires table { whole.table ≡ shared.table }
    requires size { length into.old ≡ length shared.words }
    ensures order { Ordered shared.words into.new whole }
    ensures size { length into.new ≡ length into.old }
{
    let SharedWords { table } = shared;
    let WholeSeat { seat } = whole;
    let closed = table.close_with(seat);
    copy_words(&closed, into);
    closed.free();
}

// Stores each word.
fn copy_words(closed: &Closed<u8, Global>, into: &mut PlainWords)
    requires full { IsFull closed.now.words }
    requires size { length into.old ≡ slots_len closed.now.words }
    ensures items { into.new ≡ slots_items closed.now.words }
    ensures size { length into.new ≡ length into.old }
{
    let count = CLASS_WORDS * into.classes() as u32;
    for i in 0..count {
        into.perform(Op::Store(Addr(i), closed.word(i as usize)));
    }
}
