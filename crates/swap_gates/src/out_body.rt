//! The body of swapout: load the home, find the least free page where the segment has none, copy the words, free the
//! frame, and store the home.

ghost use Rattle.std.specs.Prelude.{◌≡◌, ◌<◌, ◌≤◌, true};
ghost use Rattle.words_layout.specs.Limits.{IsIdentity};
ghost use Rattle.words_layout.specs.Sizes.{most_frames, most_pages, most_words};
ghost use Rattle.swap_gates.specs.declared.out_body.Rest.{Rest};

use gate_parts::{Body, Next, home_taken};
use policy::{Known, Reply, Rule};
use words_layout::{
    Home, Op, frame_tenant_addr, frame_word_addr, home_addr, pack_home, page_tenant_addr,
    page_word_addr, seg_number,
};

/// What the body does next.
#[derive(Clone, Copy, Debug, PartialEq, Eq)]
pub enum Rest {
    /// To load the home.
    Home,
    /// To load the tenant of a page.
    Find,
    /// To store the tenant of the free page.
    Take,
    /// To load the next word of the frame.
    Load,
    /// To store it into the page.
    Store,
    /// To store 0 as the frame's tenant.
    Free,
    /// To store the home.
    SetHome,
    /// It has ended: with a refusal, or with the segment in the page.
    Shown(Option<Rule>),
}

/// The body of swapout: how far it is.
#[derive(Clone, Copy, Debug, PartialEq, Eq)]
pub struct OutBody {
    known: Known,
    /// How many pages the class has.
    pool: u8,
    rest: Rest,
    /// The frame and the size of the home, once it was loaded.
    frame: u8,
    size: u8,
    page: u8,
    /// How many words are copied.
    place: u8,
    /// The word that was loaded last.
    word: u64,
    ghost in_limits: { IsIdentity known.seg × (known.size ≤ most_words) × (pool ≤ most_pages) × (frame < most_frames) × (page < most_pages) × (1 ≤ size) × (size ≤ most_words) },
    ghost finding: { rest ≡ Rest.Find → page < pool },
    ghost loading: { rest ≡ Rest.Load → place < known.size },
    ghost storing: { rest ≡ Rest.Store → place < known.size },
}

impl OutBody {
    ghost use Rattle.words_layout.specs.Coding.{home_in_range};
    ghost use Rattle.words_layout.specs.declared.coding.Home.{Home};
    ghost use Rattle.gate_parts.specs.Bodies.{Takes};
    ghost use Rattle.gate_parts.specs.Replies.{IsKnown};
    ghost use Rattle.swap_gates.specs.Swap.{swap_out_body};
    ghost use Rattle.swap_gates.specs.OutBody.{out_whole, out_left};

    /// The body for a known segment.
    pub fn new(known: Known, pool: u8) -> OutBody
        requires known { IsKnown known }
        requires pool { pool ≤ most_pages }
        ensures { out_whole result ≡ swap_out_body pool known }
    {
        OutBody {
            known,
            pool,
            rest: Rest::Home,
            frame: 0,
            size: 1,
            page: 0,
            place: 0,
            word: 0,
        }
    }

    /// The home of the segment in its page.
    #[tactic(auto, using(crate::proofs::Steps::stored_spelled))]
    fn new_home(&self) -> Home
        ensures home { result ≡ Home.Stored self.now.page self.now.size }
        ensures spelled { home_in_range result ≡ true }
    {
        Home::Stored {
            page: self.page,
            size: self.size,
        }
    }

    /// The home was loaded.
    #[tactic(auto, using(crate::proofs::Steps::find_over, crate::proofs::Steps::find_start, crate::proofs::Steps::copy_over))]
    fn take_home(&mut self, answer: u64)
        requires { self.old.rest ≡ Rest.Home }
        ensures { Takes out_whole out_left self.old answer self.new }
    {
        match home_taken(answer) {
            Home::Deleted => self.rest = Rest::Shown(Some(Rule::Gone)),
            Home::Resident {
                frame,
                page: Some(page),
                size,
            } => {
                self.frame = frame;
                self.size = size;
                self.page = page;
                self.place = 0;
                self.rest = if self.known.size == 0 {
                    Rest::Free
                } else {
                    Rest::Load
                };
            }
            Home::Resident { .. } if self.pool == 0 => {
                self.rest = Rest::Shown(Some(Rule::NoPage));
            }
            Home::Resident { frame, size, .. } => {
                self.frame = frame;
                self.size = size;
                self.page = 0;
                self.rest = Rest::Find;
            }
            _ => self.rest = Rest::Shown(Some(Rule::NotIn)),
        }
    }

    /// The tenant of a page was loaded.
    #[tactic(auto, using(crate::proofs::Steps::find_found, crate::proofs::Steps::find_taken, crate::proofs::Steps::find_last))]
    fn take_tenant(&mut self, answer: u64)
        requires { self.old.rest ≡ Rest.Find }
        ensures { Takes out_whole out_left self.old answer self.new }
    {
        if answer == 0 {
            self.rest = Rest::Take;
        } else if self.page + 1 < self.pool {
            self.page += 1;
        } else {
            self.rest = Rest::Shown(Some(Rule::NoPage));
        }
    }

    /// The tenant of the free page was stored.
    fn page_taken(&mut self, answer: u64)
        requires { self.old.rest ≡ Rest.Take }
        ensures { Takes out_whole out_left self.old answer self.new }
    {
        self.place = 0;
        self.rest = if self.known.size == 0 {
            Rest::Free
        } else {
            Rest::Load
        };
    }

    /// A word of the frame was loaded.
    #[tactic(auto, using(crate::proofs::Steps::copy_told))]
    fn word_loaded(&mut self, answer: u64)
        requires { self.old.rest ≡ Rest.Load }
        ensures { Takes out_whole out_left self.old answer self.new }
    {
        self.word = answer;
        self.rest = Rest::Store;
    }

    /// It was stored into the page.
    #[tactic(auto, using(crate::proofs::Steps::copy_over))]
    fn word_stored(&mut self, answer: u64)
        requires { self.old.rest ≡ Rest.Store }
        ensures { Takes out_whole out_left self.old answer self.new }
    {
        self.place += 1;
        self.rest = if self.place == self.known.size {
            Rest::Free
        } else {
            Rest::Load
        };
    }

    /// The frame was freed.
    fn frame_freed(&mut self, answer: u64)
        requires { self.old.rest ≡ Rest.Free }
        ensures { Takes out_whole out_left self.old answer self.new }
    {
        self.rest = Rest::SetHome;
    }

    /// The home was stored.
    fn home_set(&mut self, answer: u64)
        requires { self.old.rest ≡ Rest.SetHome }
        ensures { Takes out_whole out_left self.old answer self.new }
    {
        self.rest = Rest::Shown(None);
    }
}

impl Body for OutBody {
    ghost use Rattle.swap_gates.specs.OutBody.{out_whole, out_left};

    ghost whole = { out_whole };

    ghost left = { out_left };

    #[tactic(auto, using(crate::proofs::Steps::find_next, crate::proofs::Steps::copy_next))]
    fn next(&self) -> Next {
        match self.rest {
            Rest::Shown(_) => Next::EndedIn(self.known.seg),
            _ => Next::InSegment(self.known.seg),
        }
    }

    #[tactic(auto, using(crate::proofs::Steps::find_next, crate::proofs::Steps::copy_next))]
    fn op(&self, class: u8) -> Op {
        match self.rest {
            Rest::Home => Op::Load(home_addr(class, self.known.seg)),
            Rest::Find => Op::Load(page_tenant_addr(class, self.page)),
            Rest::Take => Op::Store(
                page_tenant_addr(class, self.page),
                seg_number(self.known.seg) as u64 + 1,
            ),
            Rest::Load => Op::Load(frame_word_addr(class, self.frame, self.place)),
            Rest::Store => Op::Store(page_word_addr(class, self.page, self.place), self.word),
            Rest::Free => Op::Store(frame_tenant_addr(class, self.frame), 0),
            Rest::SetHome => Op::Store(
                home_addr(class, self.known.seg),
                pack_home(&self.new_home()),
            ),
            Rest::Shown(_) => unreachable!(),
        }
    }

    fn absorb(&mut self, answer: u64) {
        match self.rest {
            Rest::Home => self.take_home(answer),
            Rest::Find => self.take_tenant(answer),
            Rest::Take => self.page_taken(answer),
            Rest::Load => self.word_loaded(answer),
            Rest::Store => self.word_stored(answer),
            Rest::Free => self.frame_freed(answer),
            Rest::SetHome => self.home_set(answer),
            Rest::Shown(_) => unreachable!(),
        }
    }

    fn begin(&mut self) {
        self.rest = Rest::Home;
    }

    #[tactic(auto, using(crate::proofs::Steps::find_next, crate::proofs::Steps::copy_next))]
    fn reply(&self) -> Reply {
        match self.rest {
            Rest::Shown(Some(rule)) => Reply::refused(rule),
            _ => Reply::ok(0),
        }
    }
}
