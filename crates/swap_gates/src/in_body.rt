//! The body of swapin: load the home, find the least free frame, take it, fill it, and store the home.

ghost use Rattle.std.specs.Prelude.{◌≡◌, ◌<◌, ◌≤◌, true, false};
ghost use Rattle.words_layout.specs.Limits.{IsIdentity};
ghost use Rattle.words_layout.specs.Sizes.{most_frames, most_pages, most_words};
ghost use Rattle.swap_gates.specs.declared.in_body.Rest.{Rest};

use gate_parts::{Body, Next, home_taken};
use policy::{Known, Reply, Rule};
use words_layout::{
    Home, Op, frame_tenant_addr, frame_word_addr, home_addr, pack_home, page_word_addr, seg_number,
};

/// What the body does next.
#[derive(Clone, Copy, Debug, PartialEq, Eq)]
pub enum Rest {
    /// To load the home.
    Home,
    /// To load the tenant of a frame.
    Find,
    /// To store the tenant of the free frame.
    Take,
    /// To store 0 as the next word of the frame.
    Zero,
    /// To load the next word of the page.
    Load,
    /// To store it into the frame.
    Store,
    /// To store the home.
    SetHome,
    /// It has ended: with a refusal, or with the segment in the frame.
    Shown(Option<Rule>),
}

/// The body of swapin: how far it is.
#[derive(Clone, Copy, Debug, PartialEq, Eq)]
pub struct InBody {
    known: Known,
    /// How many frames the class has.
    pool: u8,
    rest: Rest,
    frame: u8,
    /// Whether the segment has a page, and which.
    stored: bool,
    page: u8,
    /// How many words of the frame are filled.
    place: u8,
    /// The word that was loaded last.
    word: u64,
    ghost in_limits: { IsIdentity known.seg × (1 ≤ known.size) × (known.size ≤ most_words) × (pool ≤ most_frames) × (frame < most_frames) × (page < most_pages) },
    ghost finding: { rest ≡ Rest.Find → frame < pool },
    ghost zeroing: { rest ≡ Rest.Zero → (place < known.size) × (stored ≡ false) },
    ghost loading: { rest ≡ Rest.Load → (place < known.size) × (stored ≡ true) },
    ghost storing: { rest ≡ Rest.Store → (place < known.size) × (stored ≡ true) },
}

impl InBody {
    ghost use Rattle.std.specs.Prelude.{Some};
    ghost use Rattle.words_layout.specs.Coding.{home_in_range};
    ghost use Rattle.words_layout.specs.declared.coding.Home.{Home};
    ghost use Rattle.gate_parts.specs.Bodies.{Takes};
    ghost use Rattle.gate_parts.specs.Replies.{IsKnown};
    ghost use Rattle.swap_gates.specs.Swap.{swap_in_body};
    ghost use Rattle.gate_parts.specs.Taken.{page_of};
    ghost use Rattle.swap_gates.specs.InBody.{in_whole, in_left};

    /// The body for a known segment that has a word.
    pub fn new(known: Known, pool: u8) -> InBody
        requires known { IsKnown known }
        requires size { 1 ≤ known.size }
        requires pool { pool ≤ most_frames }
        ensures { in_whole result ≡ swap_in_body pool known }
    {
        InBody {
            known,
            pool,
            rest: Rest::Home,
            frame: 0,
            stored: false,
            page: 0,
            place: 0,
            word: 0,
        }
    }

    /// The home of the segment in its frame.
    #[tactic(auto, using(crate::proofs::Steps::resident_spelled))]
    fn new_home(&self) -> Home
        ensures home { result ≡ Home.Resident self.now.frame (page_of self.now.stored self.now.page) self.now.known.size }
        ensures spelled { home_in_range result ≡ true }
    {
        Home::Resident {
            frame: self.frame,
            page: if self.stored { Some(self.page) } else { None },
            size: self.known.size,
        }
    }

    /// The home was loaded.
    #[tactic(auto, using(crate::proofs::Steps::find_over, crate::proofs::Steps::find_start))]
    fn take_home(&mut self, answer: u64)
        requires { self.old.rest ≡ Rest.Home }
        ensures { Takes in_whole in_left self.old answer self.new }
    {
        match home_taken(answer) {
            Home::Deleted => self.rest = Rest::Shown(Some(Rule::Gone)),
            Home::Resident { .. } => self.rest = Rest::Shown(Some(Rule::AlreadyIn)),
            _ if self.pool == 0 => self.rest = Rest::Shown(Some(Rule::NoFrame)),
            Home::Never => {
                self.stored = false;
                self.frame = 0;
                self.rest = Rest::Find;
            }
            Home::Stored { page, .. } => {
                self.stored = true;
                self.page = page;
                self.frame = 0;
                self.rest = Rest::Find;
            }
        }
    }

    /// The tenant of a frame was loaded.
    #[tactic(auto, using(crate::proofs::Steps::find_found, crate::proofs::Steps::find_taken, crate::proofs::Steps::find_last))]
    fn take_tenant(&mut self, answer: u64)
        requires { self.old.rest ≡ Rest.Find }
        ensures { Takes in_whole in_left self.old answer self.new }
    {
        if answer == 0 {
            self.rest = Rest::Take;
        } else if self.frame + 1 < self.pool {
            self.frame += 1;
        } else {
            self.rest = Rest::Shown(Some(Rule::NoFrame));
        }
    }

    /// The tenant of the free frame was stored.
    fn frame_taken(&mut self, answer: u64)
        requires { self.old.rest ≡ Rest.Take }
        ensures { Takes in_whole in_left self.old answer self.new }
    {
        self.place = 0;
        self.rest = if self.stored { Rest::Load } else { Rest::Zero };
    }

    /// A word was stored as 0.
    #[tactic(auto, using(crate::proofs::Steps::zero_told, crate::proofs::Steps::zero_last))]
    fn word_zeroed(&mut self, answer: u64)
        requires { self.old.rest ≡ Rest.Zero }
        ensures { Takes in_whole in_left self.old answer self.new }
    {
        self.place += 1;
        if self.place == self.known.size {
            self.rest = Rest::SetHome;
        }
    }

    /// A word of the page was loaded.
    #[tactic(auto, using(crate::proofs::Steps::copy_told))]
    fn word_loaded(&mut self, answer: u64)
        requires { self.old.rest ≡ Rest.Load }
        ensures { Takes in_whole in_left self.old answer self.new }
    {
        self.word = answer;
        self.rest = Rest::Store;
    }

    /// It was stored into the frame.
    #[tactic(auto, using(crate::proofs::Steps::copy_over))]
    fn word_stored(&mut self, answer: u64)
        requires { self.old.rest ≡ Rest.Store }
        ensures { Takes in_whole in_left self.old answer self.new }
    {
        self.place += 1;
        self.rest = if self.place == self.known.size {
            Rest::SetHome
        } else {
            Rest::Load
        };
    }

    /// The home was stored.
    fn home_set(&mut self, answer: u64)
        requires { self.old.rest ≡ Rest.SetHome }
        ensures { Takes in_whole in_left self.old answer self.new }
    {
        self.rest = Rest::Shown(None);
    }
}

impl Body for InBody {
    ghost use Rattle.swap_gates.specs.InBody.{in_whole, in_left};

    ghost whole = { in_whole };

    ghost left = { in_left };

    #[tactic(auto, using(crate::proofs::Steps::find_next, crate::proofs::Steps::zero_next, crate::proofs::Steps::copy_next))]
    fn next(&self) -> Next {
        match self.rest {
            Rest::Shown(_) => Next::EndedIn(self.known.seg),
            _ => Next::InSegment(self.known.seg),
        }
    }

    #[tactic(auto, using(crate::proofs::Steps::find_next, crate::proofs::Steps::zero_next, crate::proofs::Steps::copy_next))]
    fn op(&self, class: u8) -> Op {
        match self.rest {
            Rest::Home => Op::Load(home_addr(class, self.known.seg)),
            Rest::Find => Op::Load(frame_tenant_addr(class, self.frame)),
            Rest::Take => Op::Store(
                frame_tenant_addr(class, self.frame),
                seg_number(self.known.seg) as u64 + 1,
            ),
            Rest::Zero => Op::Store(frame_word_addr(class, self.frame, self.place), 0),
            Rest::Load => Op::Load(page_word_addr(class, self.page, self.place)),
            Rest::Store => Op::Store(frame_word_addr(class, self.frame, self.place), self.word),
            Rest::SetHome => Op::Store(
                home_addr(class, self.known.seg),
                pack_home(&self.new_home()),
            ),
            Rest::Shown(_) => unreachable!(),
        }
    }

    fn absorb(&mut self, answer: u64) {
        match self.rest {
            Rest::Home => self.take_home(answer),
            Rest::Find => self.take_tenant(answer),
            Rest::Take => self.frame_taken(answer),
            Rest::Zero => self.word_zeroed(answer),
            Rest::Load => self.word_loaded(answer),
            Rest::Store => self.word_stored(answer),
            Rest::SetHome => self.home_set(answer),
            Rest::Shown(_) => unreachable!(),
        }
    }

    fn begin(&mut self) {
        self.rest = Rest::Home;
    }

    #[tactic(auto, using(crate::proofs::Steps::find_next, crate::proofs::Steps::zero_next, crate::proofs::Steps::copy_next))]
    fn reply(&self) -> Reply {
        match self.rest {
            Rest::Shown(Some(rule)) => Reply::refused(rule),
            _ => Reply::ok(0),
        }
    }
}
