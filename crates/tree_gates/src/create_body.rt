//! The body of create: load the mentor's home, the entry and the next serial; store the next serial and the entry.

ghost use Rattle.std.specs.Prelude.{◌≡◌, ◌<◌, ◌≤◌, true};
ghost use Rattle.words_layout.specs.Limits.{IsIdentity};
ghost use Rattle.words_layout.specs.Sizes.{entry_count, most_classes, most_serials, most_words};
ghost use Rattle.tree_gates.specs.declared.create_body.Rest.{Rest};

use gate_parts::{Body, Next, entry_taken, home_taken};
use policy::{Reply, Rule};
use rings::Brackets;
use words_layout::{
    Alias, Home, Op, SERIAL_LIMIT, SegId, entry_addr, home_addr, pack_alias, serial_addr,
};

/// What the body does next.
#[derive(Clone, Copy, Debug, PartialEq, Eq)]
pub enum Rest {
    /// To load the mentor's home.
    Home,
    /// To load the entry.
    Entry,
    /// To load the next serial.
    Serial,
    /// To store the next serial, plus one.
    SetSerial,
    /// To store the entry.
    SetEntry,
    /// It has ended: with a refusal, or with the entry stored.
    Shown(Option<Rule>),
}

/// The body of create: how far it is.
#[derive(Clone, Copy, Debug, PartialEq, Eq)]
pub struct CreateBody {
    /// The mentor, and the entry of it.
    seg: SegId,
    entry: u8,
    /// Class, brackets and size of the new segment.
    class: u8,
    brackets: Brackets,
    size: u8,
    rest: Rest,
    /// The serial of the new segment, once it was loaded.
    serial: u64,
    ghost in_limits: { IsIdentity seg × (entry < entry_count) × (class < most_classes) × (1 ≤ size) × (size ≤ most_words) },
    ghost serial_set: { rest ≡ Rest.SetSerial → serial < most_serials },
    ghost serial_used: { rest ≡ Rest.SetEntry → serial < most_serials },
}

impl CreateBody {
    ghost use Rattle.words_layout.specs.Coding.{alias_in_range};
    ghost use Rattle.policy.specs.Known.{new_alias};
    ghost use Rattle.gate_parts.specs.Bodies.{Takes};
    ghost use Rattle.tree_gates.specs.Tree.{create_body};
    ghost use Rattle.tree_gates.specs.CreateBody.{create_whole, create_left};

    /// The body that makes a segment of this class, brackets and size in an entry of a mentor.
    pub fn new(mentor: SegId, entry: u8, class: u8, brackets: Brackets, size: u8) -> CreateBody
        requires mentor { IsIdentity mentor }
        requires entry { entry < entry_count }
        requires class { class < most_classes }
        requires some { 1 ≤ size }
        requires size { size ≤ most_words }
        ensures { create_whole result ≡ create_body mentor entry class brackets size }
    {
        CreateBody {
            seg: mentor,
            entry,
            class,
            brackets,
            size,
            rest: Rest::Home,
            serial: 0,
        }
    }

    /// The new segment's entry.
    #[tactic(auto, using(crate::proofs::Created::alias_spelled))]
    fn alias(&self) -> Alias
        requires { self.now.serial < most_serials }
        ensures alias { result ≡ new_alias self.now.class self.now.brackets self.now.size self.now.serial }
        ensures spelled { alias_in_range result ≡ true }
    {
        Alias {
            class: self.class,
            r1: self.brackets.r1,
            r2: self.brackets.r2,
            r3: self.brackets.r3,
            size: self.size,
            serial: self.serial as u8,
        }
    }

    /// The mentor's home was loaded.
    fn take_home(&mut self, answer: u64)
        requires { self.old.rest ≡ Rest.Home }
        ensures { Takes create_whole create_left self.old answer self.new }
    {
        self.rest = if let Home::Deleted = home_taken(answer) {
            Rest::Shown(Some(Rule::Gone))
        } else {
            Rest::Entry
        };
    }

    /// The entry was loaded.
    fn take_entry(&mut self, answer: u64)
        requires { self.old.rest ≡ Rest.Entry }
        ensures { Takes create_whole create_left self.old answer self.new }
    {
        self.rest = if let Some(_) = entry_taken(answer) {
            Rest::Shown(Some(Rule::EntryTaken))
        } else {
            Rest::Serial
        };
    }

    /// The next serial was loaded.
    fn take_serial(&mut self, answer: u64)
        requires { self.old.rest ≡ Rest.Serial }
        ensures { Takes create_whole create_left self.old answer self.new }
    {
        if answer >= SERIAL_LIMIT as u64 {
            self.rest = Rest::Shown(Some(Rule::SerialsUsed));
        } else {
            self.serial = answer;
            self.rest = Rest::SetSerial;
        }
    }

    /// The next serial was stored.
    fn serial_stored(&mut self, answer: u64)
        requires { self.old.rest ≡ Rest.SetSerial }
        ensures { Takes create_whole create_left self.old answer self.new }
    {
        self.rest = Rest::SetEntry;
    }

    /// The entry was stored.
    fn entry_stored(&mut self, answer: u64)
        requires { self.old.rest ≡ Rest.SetEntry }
        ensures { Takes create_whole create_left self.old answer self.new }
    {
        self.rest = Rest::Shown(None);
    }
}

impl Body for CreateBody {
    ghost use Rattle.tree_gates.specs.CreateBody.{create_whole, create_left};

    ghost whole = { create_whole };

    ghost left = { create_left };

    fn next(&self) -> Next {
        match self.rest {
            Rest::Shown(_) => Next::Ended,
            _ => Next::InClass,
        }
    }

    fn op(&self, class: u8) -> Op {
        match self.rest {
            Rest::Home => Op::Load(home_addr(class, self.seg)),
            Rest::Entry => Op::Load(entry_addr(class, self.seg, self.entry)),
            Rest::Serial => Op::Load(serial_addr(class)),
            Rest::SetSerial => Op::Store(serial_addr(class), self.serial.wrapping_add(1)),
            Rest::SetEntry => Op::Store(
                entry_addr(class, self.seg, self.entry),
                pack_alias(Some(&self.alias())),
            ),
            Rest::Shown(_) => unreachable!(),
        }
    }

    fn absorb(&mut self, answer: u64) {
        match self.rest {
            Rest::Home => self.take_home(answer),
            Rest::Entry => self.take_entry(answer),
            Rest::Serial => self.take_serial(answer),
            Rest::SetSerial => self.serial_stored(answer),
            Rest::SetEntry => self.entry_stored(answer),
            Rest::Shown(_) => unreachable!(),
        }
    }

    fn begin(&mut self) {
        self.rest = Rest::Home;
    }

    fn reply(&self) -> Reply {
        match self.rest {
            Rest::Shown(Some(rule)) => Reply::refused(rule),
            _ => Reply::ok(self.serial),
        }
    }
}
