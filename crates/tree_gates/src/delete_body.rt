//! The body of delete: load the entry. A child of a higher class loses its entry alone. A child of the caller's class must
//! have no entries; within its own turn its frame and page are freed, its home becomes Deleted and the entry is emptied.

ghost use Rattle.std.specs.Prelude.{◌≡◌, ◌<◌, true};
ghost use Rattle.words_layout.specs.Limits.{IsIdentity};
ghost use Rattle.words_layout.specs.Sizes.{entry_count, most_classes, most_frames, most_pages};
ghost use Rattle.tree_gates.specs.declared.delete_body.Rest.{Rest};

use gate_parts::{Body, Next, entry_taken, home_taken};
use policy::{Reply, Rule};
use words_layout::{
    ENTRY_COUNT, Home, Op, SegId, entry_addr, frame_tenant_addr, home_addr, pack_home,
    page_tenant_addr,
};

/// What the body does next.
#[derive(Clone, Copy, Debug, PartialEq, Eq)]
pub enum Rest {
    /// To load the entry.
    Entry,
    /// To load the child's next entry.
    Check,
    /// To empty the entry of a child of a higher class.
    Clear,
    /// In the child's turn: to load its home.
    Home,
    /// To store 0 to the tenant of its frame.
    FreeFrame,
    /// To store 0 to the tenant of its page.
    FreePage,
    /// To store Deleted to its home.
    SetHome,
    /// To empty the entry.
    Empty,
    /// It has ended in the child's turn.
    Deleted,
    /// It has ended without one: with a refusal, or with the entry of a child of a higher class emptied.
    Shown(Option<Rule>),
}

/// The body of delete: how far it is.
#[derive(Clone, Copy, Debug, PartialEq, Eq)]
pub struct DeleteBody {
    class: u8,
    /// The mentor, and the entry of it.
    mentor: SegId,
    entry: u8,
    rest: Rest,
    /// The child of the caller's class; the mentor until the entry was loaded.
    child: SegId,
    /// How many of its entries are empty.
    place: u8,
    frame: u8,
    /// Whether it has a page, and which.
    paged: bool,
    page: u8,
    ghost in_limits: { (class < most_classes) × IsIdentity mentor × (entry < entry_count) × IsIdentity child × (frame < most_frames) × (page < most_pages) },
    ghost checking: { rest ≡ Rest.Check → place < 8 },
}

impl DeleteBody {
    ghost use Rattle.gate_parts.specs.Bodies.{Takes};
    ghost use Rattle.tree_gates.specs.Tree.{delete_body};
    ghost use Rattle.tree_gates.specs.DeleteBody.{delete_whole, delete_left};

    /// The body that deletes the segment in an entry of a mentor, for a caller of this class.
    pub fn new(class: u8, mentor: SegId, entry: u8) -> DeleteBody
        requires class { class < most_classes }
        requires mentor { IsIdentity mentor }
        requires entry { entry < entry_count }
        ensures { delete_whole result ≡ delete_body class mentor entry }
    {
        DeleteBody {
            class,
            mentor,
            entry,
            rest: Rest::Entry,
            child: mentor,
            place: 0,
            frame: 0,
            paged: false,
            page: 0,
        }
    }

    /// The entry was loaded.
    #[tactic(auto, using(crate::proofs::Deleted::own_told, crate::proofs::Deleted::higher_told, crate::proofs::Entries::serial_fits))]
    fn take_entry(&mut self, answer: u64)
        requires { self.old.rest ≡ Rest.Entry }
        ensures { Takes delete_whole delete_left self.old answer self.new }
    {
        match entry_taken(answer) {
            None => self.rest = Rest::Shown(Some(Rule::NoEntry)),
            Some(alias) if alias.class == self.class => {
                self.child = SegId {
                    mentor: self.class,
                    serial: alias.serial,
                };
                self.place = 0;
                self.rest = Rest::Check;
            }
            Some(_) => self.rest = Rest::Clear,
        }
    }

    /// An entry of the child was loaded.
    #[tactic(auto, using(crate::proofs::Deleted::taken_told, crate::proofs::Deleted::empty_told, crate::proofs::Deleted::last_told))]
    fn child_entry_loaded(&mut self, answer: u64)
        requires { self.old.rest ≡ Rest.Check }
        ensures { Takes delete_whole delete_left self.old answer self.new }
    {
        if let Some(_) = entry_taken(answer) {
            self.rest = Rest::Shown(Some(Rule::NotEmpty));
        } else if self.place + 1 < ENTRY_COUNT {
            self.place += 1;
        } else {
            self.rest = Rest::Home;
        }
    }

    /// The entry of a child of a higher class was emptied.
    fn entry_cleared(&mut self, answer: u64)
        requires { self.old.rest ≡ Rest.Clear }
        ensures { Takes delete_whole delete_left self.old answer self.new }
    {
        self.rest = Rest::Shown(None);
    }

    /// The child's home was loaded.
    fn take_home(&mut self, answer: u64)
        requires { self.old.rest ≡ Rest.Home }
        ensures { Takes delete_whole delete_left self.old answer self.new }
    {
        match home_taken(answer) {
            Home::Resident {
                frame,
                page: Some(page),
                ..
            } => {
                self.frame = frame;
                self.paged = true;
                self.page = page;
                self.rest = Rest::FreeFrame;
            }
            Home::Resident {
                frame,
                page: None,
                ..
            } => {
                self.frame = frame;
                self.paged = false;
                self.rest = Rest::FreeFrame;
            }
            Home::Stored { page, .. } => {
                self.page = page;
                self.rest = Rest::FreePage;
            }
            Home::Never | Home::Deleted => self.rest = Rest::SetHome,
        }
    }

    /// The tenant of the frame was stored.
    fn frame_freed(&mut self, answer: u64)
        requires { self.old.rest ≡ Rest.FreeFrame }
        ensures { Takes delete_whole delete_left self.old answer self.new }
    {
        self.rest = if self.paged {
            Rest::FreePage
        } else {
            Rest::SetHome
        };
    }

    /// The tenant of the page was stored.
    fn page_freed(&mut self, answer: u64)
        requires { self.old.rest ≡ Rest.FreePage }
        ensures { Takes delete_whole delete_left self.old answer self.new }
    {
        self.rest = Rest::SetHome;
    }

    /// The child's home was stored.
    fn home_set(&mut self, answer: u64)
        requires { self.old.rest ≡ Rest.SetHome }
        ensures { Takes delete_whole delete_left self.old answer self.new }
    {
        self.rest = Rest::Empty;
    }

    /// The entry of a child of the caller's class was emptied.
    fn entry_emptied(&mut self, answer: u64)
        requires { self.old.rest ≡ Rest.Empty }
        ensures { Takes delete_whole delete_left self.old answer self.new }
    {
        self.rest = Rest::Deleted;
    }
}

impl Body for DeleteBody {
    ghost use Rattle.tree_gates.specs.DeleteBody.{delete_whole, delete_left};

    ghost whole = { delete_whole };

    ghost left = { delete_left };

    #[tactic(auto, using(crate::proofs::Deleted::check_next))]
    fn next(&self) -> Next {
        match self.rest {
            Rest::Entry | Rest::Check | Rest::Clear => Next::InClass,
            Rest::Shown(_) => Next::Ended,
            Rest::Deleted => Next::EndedIn(self.child),
            _ => Next::InSegment(self.child),
        }
    }

    #[tactic(auto, using(crate::proofs::Deleted::check_next))]
    fn op(&self, class: u8) -> Op {
        match self.rest {
            Rest::Entry => Op::Load(entry_addr(class, self.mentor, self.entry)),
            Rest::Check => Op::Load(entry_addr(class, self.child, self.place)),
            Rest::Clear | Rest::Empty => Op::Store(entry_addr(class, self.mentor, self.entry), 0),
            Rest::Home => Op::Load(home_addr(class, self.child)),
            Rest::FreeFrame => Op::Store(frame_tenant_addr(class, self.frame), 0),
            Rest::FreePage => Op::Store(page_tenant_addr(class, self.page), 0),
            Rest::SetHome => Op::Store(home_addr(class, self.child), pack_home(&Home::Deleted)),
            Rest::Shown(_) | Rest::Deleted => unreachable!(),
        }
    }

    fn absorb(&mut self, answer: u64) {
        match self.rest {
            Rest::Entry => self.take_entry(answer),
            Rest::Check => self.child_entry_loaded(answer),
            Rest::Clear => self.entry_cleared(answer),
            Rest::Home => self.take_home(answer),
            Rest::FreeFrame => self.frame_freed(answer),
            Rest::FreePage => self.page_freed(answer),
            Rest::SetHome => self.home_set(answer),
            Rest::Empty => self.entry_emptied(answer),
            Rest::Shown(_) | Rest::Deleted => unreachable!(),
        }
    }

    fn begin(&mut self) {
        self.rest = Rest::Entry;
    }

    #[tactic(auto, using(crate::proofs::Deleted::check_next))]
    fn reply(&self) -> Reply {
        match self.rest {
            Rest::Shown(Some(rule)) => Reply::refused(rule),
            _ => Reply::ok(0),
        }
    }
}
