//! Fetch: a look at the segment, whose body loads the home and the words of its frame.

ghost use Rattle.std.specs.Prelude.{◌≡◌, ◌<◌, ◌≤◌, ◌+◌, length};
ghost use Rattle.words_layout.specs.Limits.{IsIdentity};
ghost use Rattle.words_layout.specs.Sizes.{most_classes, most_frames, most_words};
ghost use Rattle.turns.specs.Parts.{guard_class, look_in_body};
ghost use Rattle.data_gates.specs.declared.fetch.Rest.{Rest};
ghost use Rattle.data_gates.specs.FetchRest.{loads};

use arrayvec::ArrayVec;
use gate_parts::home_taken;
use policy::{Caller, Known, Outcome, Reply, Rule, fetch_refusal, usable};
use turns::{Guard, Look, LookStep};
use words_layout::{Home, Op, SegId, frame_word_addr, home_addr};

/// What the body does next.
#[derive(Clone, Copy, Debug, PartialEq, Eq)]
enum Rest {
    /// To load the home.
    Home,
    /// To load the next word of the frame.
    Words,
    /// The body isn't begun, or it has ended: with a refusal, or with all words loaded.
    Shown(Option<Rule>),
}

/// Fetch: so many words of a segment into the pad.
#[derive(Drop)]
pub struct Fetch {
    class: u8,
    seg: SegId,
    offset: u8,
    count: u8,
    pad: u8,
    /// The first broken private test.
    refusal: Option<Rule>,
    look: Look,
    rest: Rest,
    /// The frame of the words, once its home was loaded.
    frame: u8,
    words: ArrayVec<u64, 64>,
    ghost class_is: { guard_class look.guard ≡ class },
    ghost in_limits: { (class < most_classes) × IsIdentity seg × (offset + count ≤ most_words) × (frame < most_frames) × (1 ≤ count) },
    ghost in_body: { look_in_body look.part ≡ loads rest },
    ghost room: { rest ≡ Rest.Words → length words.items < count },
}

impl Fetch {
    ghost use Rattle.std.specs.Prelude.{ℕ, List, false, Some, None};
    ghost use Rattle.turns.specs.Doing.{Told, going, Fresh, Look as LookAct};
    ghost use Rattle.turns.specs.Stands.{step_op, step_told};
    ghost use Rattle.words_layout.specs.Named.{op_at};
    ghost use Rattle.turns.specs.Classes.{LoadsOnly};
    ghost use Rattle.policy.specs.Outcome.{Words};
    ghost use Rattle.std.specs.Option.{option_map, option_map_or};
    ghost use Rattle.policy.specs.Known.{usable};
    ghost use Rattle.policy.specs.Private.{fetch_tests};
    ghost use Rattle.data_gates.specs.Data.{fetch_body};
    ghost use Rattle.words_layout.specs.Words.{OfSegment};
    ghost use Rattle.turns.specs.Stands.{refusing};
    ghost use Rattle.policy.specs.Outcome.{Refused};
    ghost use Rattle.gate_parts.specs.Replies.{begins, KnownTo, IsKnown, answers, reply_of};
    ghost use Rattle.data_gates.specs.Fetching.{act_of, doing_of, fetch_shows};

    /// Makes the private tests. An empty place, or one that may be signalled alone, gives UnknownSegno.
    #[tactic(auto, using(crate::proofs::Bounds::fetch_bounds, crate::proofs::Bounds::update_bounds))]
    pub fn start(who: &Caller, known: Option<&Known>, offset: u64, count: u64, pad: u64) -> Fetch
        requires class { who.now.class < most_classes }
        requires known { KnownTo who.now.class (option_map (λ k. k.now) known) }
        ensures act { act_of result ≡ begins (usable (option_map (λ k. k.now) known.entry)) (fetch_tests who.now.ring offset count pad) (λ k. LookAct k.class (OfSegment k.seg) (fetch_body k.seg offset count pad)) }
        ensures fresh { doing_of result ≡ Fresh }
        ensures class { result.class ≡ option_map_or (λ k. k.class) (usable (option_map (λ k. k.now) known.entry)) who.now.class }
    {
        let Some(known) = usable(known) else {
            return Fetch::refused(who.class, Rule::UnknownSegno);
        };
        if let Some(rule) = fetch_refusal(who.ring, known, offset, count, pad) {
            return Fetch::refused(known.class, rule);
        }
        Fetch {
            class: known.class,
            seg: known.seg,
            offset: offset as u8,
            count: count as u8,
            pad: pad as u8,
            refusal: None,
            look: Look::new(Guard::Segment(known.class, known.seg)),
            rest: Rest::Shown(None),
            frame: 0,
            words: ArrayVec::new(),
        }
    }

    /// Starts again in place, as `start` does where the private tests pass: it is then the fetch of these words.
    pub fn restart(&mut self, known: &Known, offset: u8, count: u8, pad: u8)
        requires known { IsKnown known.now }
        requires some { 1 ≤ count }
        requires segment { offset + count ≤ most_words }
        ensures act { act_of self.new ≡ LookAct known.now.class (OfSegment known.now.seg) (fetch_body known.now.seg offset count pad) }
        ensures fresh { doing_of self.new ≡ Fresh }
        ensures class { self.new.class ≡ known.now.class }
    {
        self.class = known.class;
        self.seg = known.seg;
        self.offset = offset;
        self.count = count;
        self.pad = pad;
        self.refusal = None;
        self.look = Look::new(Guard::Segment(known.class, known.seg));
        self.rest = Rest::Shown(None);
        self.frame = 0;
        self.words.clear();
    }

    /// The gate that a private test refuses.
    fn refused(class: u8, rule: Rule) -> Fetch
        requires { class < most_classes }
        ensures act { act_of result ≡ refusing (Refused rule) }
        ensures fresh { doing_of result ≡ Fresh }
        ensures class { result.class ≡ class }
    {
        Fetch {
            class,
            seg: SegId {
                mentor: 0,
                serial: 0,
            },
            offset: 0,
            count: 1,
            pad: 0,
            refusal: Some(rule),
            look: Look::new(Guard::Class(class)),
            rest: Rest::Shown(None),
            frame: 0,
            words: ArrayVec::new(),
        }
    }

    /// The operation of the next step.
    #[tactic(auto, using(crate::proofs::Fetched::word_asked))]
    #[inline(always)]
    pub fn next_op(&self) -> Op
        ensures op { (d : ℕ) → result ≡ op_at d (step_op d (act_of self.now) (doing_of self.now)) }
        ensures class { LoadsOnly self.now.class result }
    {
        if self.refusal.is_some() {
            return Op::Nothing;
        }
        match self.rest {
            Rest::Home => Op::Load(home_addr(self.class, self.seg)),
            Rest::Words => Op::Load(frame_word_addr(
                self.class,
                self.frame,
                self.offset + self.words.len() as u8,
            )),
            Rest::Shown(_) => self.look.next_op(),
        }
    }

    /// Takes the answer to the operation of the step.
    #[inline(always)]
    pub fn absorb(&mut self, answer: u64) -> Outcome
        ensures outcome { result ≡ answers (step_told (act_of self.old) (doing_of self.old) answer) None }
        ensures doing { doing_of self.new ≡ (step_told (act_of self.old) (doing_of self.old) answer).doing }
        ensures act { act_of self.new ≡ act_of self.old }
        ensures class { self.new.class ≡ self.old.class }
        ensures words { (pad : ℕ) (words : List ℕ) → (step_told (act_of self.old) (doing_of self.old) answer).takes ≡ Some (Words pad words) → self.new.words.items ≡ words }
    {
        if let Some(rule) = self.refusal {
            return Outcome::Done(Reply::refused(rule));
        }
        match self.rest {
            Rest::Home => self.take_home(answer),
            Rest::Words => self.take_word(answer),
            Rest::Shown(_) => return self.take_look(answer),
        }
        Outcome::Going
    }

    /// The home was loaded.
    #[tactic(auto, using(turns::proofs::Looking::body_told, turns::proofs::Looking::looking_checked))]
    fn take_home(&mut self, answer: u64)
        requires begun { self.old.refusal ≡ None }
        requires home { self.old.rest ≡ Rest.Home }
        ensures told { step_told (act_of self.old) (doing_of self.old) answer ≡ going (doing_of self.new) }
        ensures act { act_of self.new ≡ act_of self.old }
        ensures class { self.new.class ≡ self.old.class }
    {
        match home_taken(answer) {
            Home::Resident { frame, .. } => {
                self.frame = frame;
                self.words.clear();
                self.rest = Rest::Words;
            }
            Home::Deleted => {
                self.look.check();
                self.rest = Rest::Shown(Some(Rule::Gone));
            }
            _ => {
                self.look.check();
                self.rest = Rest::Shown(Some(Rule::NotIn));
            }
        }
    }

    /// A word was loaded.
    #[tactic(auto, using(crate::proofs::Fetched::word_told, turns::proofs::Looking::looking_checked))]
    fn take_word(&mut self, answer: u64)
        requires begun { self.old.refusal ≡ None }
        requires words { self.old.rest ≡ Rest.Words }
        ensures told { step_told (act_of self.old) (doing_of self.old) answer ≡ going (doing_of self.new) }
        ensures act { act_of self.new ≡ act_of self.old }
        ensures class { self.new.class ≡ self.old.class }
    {
        self.words.push(answer);
        if self.words.len() == self.count as usize {
            self.look.check();
            self.rest = Rest::Shown(None);
        }
    }

    /// The look takes a step outside its body.
    #[tactic(auto, using(turns::proofs::Looking::looking_told))]
    fn take_look(&mut self, answer: u64) -> Outcome
        requires begun { self.old.refusal ≡ None }
        requires outside { loads self.old.rest ≡ false }
        ensures outcome { result ≡ answers (step_told (act_of self.old) (doing_of self.old) answer) None }
        ensures doing { doing_of self.new ≡ (step_told (act_of self.old) (doing_of self.old) answer).doing }
        ensures act { act_of self.new ≡ act_of self.old }
        ensures class { self.new.class ≡ self.old.class }
        ensures words { (pad : ℕ) (words : List ℕ) → (step_told (act_of self.old) (doing_of self.old) answer).takes ≡ Some (Words pad words) → self.new.words.items ≡ words }
    {
        match self.look.absorb(answer) {
            LookStep::Going => Outcome::Going,
            LookStep::Body => {
                self.rest = Rest::Home;
                Outcome::Going
            }
            LookStep::Poll => Outcome::Poll,
            LookStep::Accepted => Outcome::Done(self.reply()),
        }
    }

    /// The reply of the body.
    fn reply(&self) -> Reply
        ensures { result ≡ reply_of (fetch_shows self.now.pad self.now.words.items self.now.rest) }
    {
        match self.rest {
            Rest::Shown(Some(rule)) => Reply::refused(rule),
            _ => Reply::ok(self.words.len() as u64),
        }
    }

    /// The words that the accepted body loaded.
    pub fn words(&self) -> &ArrayVec<u64, 64>
        ensures { result.now ≡ self.now.words }
    {
        &self.words
    }
}
