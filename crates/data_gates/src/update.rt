//! Update: the segment's turn, whose body loads the home, stores the words and counts the write.

ghost use Rattle.std.specs.Prelude.{◌≡◌, ◌<◌, ◌≤◌, ◌+◌};
ghost use Rattle.words_layout.specs.Limits.{IsIdentity};
ghost use Rattle.words_layout.specs.Sizes.{most_classes, most_frames, most_words};
ghost use Rattle.turns.specs.Parts.{turn_is_held};
ghost use Rattle.turns.specs.declared.guard.Guard.{Guard};
ghost use Rattle.data_gates.specs.UpdateRest.{holds};
ghost use Rattle.data_gates.specs.declared.update.Rest.{Rest};

use gate_parts::home_taken;
use policy::{Caller, Known, Outcome, Reply, Rule, update_refusal, usable};
use turns::{Guard, Turn, TurnStep};
use words_layout::{Home, Op, SegId, frame_word_addr, home_addr, writes_addr};

/// What the body does next.
#[derive(Clone, Copy, Debug, PartialEq, Eq)]
enum Rest {
    /// To load the home.
    Home,
    /// To store the next word into the frame.
    Words,
    /// To count the write.
    Count,
    /// The body isn't begun, or it has ended: with a refusal, or with all words stored and the write counted.
    Shown(Option<Rule>),
}

/// Update: so many words of the pad into a segment.
#[derive(Drop)]
pub struct Update {
    class: u8,
    seg: SegId,
    offset: u8,
    count: u8,
    pad: u8,
    /// The first broken private test.
    refusal: Option<Rule>,
    turn: Turn,
    rest: Rest,
    /// The frame of the words, once its home was loaded.
    frame: u8,
    /// How many words are stored.
    stored: u8,
    /// The count of writes, once it was raised.
    writes: u64,
    words: [u64; 64],
    ghost guard_is: { turn.guard ≡ Guard.Segment class seg },
    ghost in_limits: { (class < most_classes) × IsIdentity seg × (offset + count ≤ most_words) × (pad + count ≤ most_words) × (frame < most_frames) × (1 ≤ count) },
    ghost held: { turn_is_held turn.part ≡ holds rest },
    ghost left: { rest ≡ Rest.Words → stored < count },
}

impl Update {
    ghost use Rattle.std.specs.Prelude.{ℕ, false, Some, None};
    ghost use Rattle.words_layout.specs.Named.{op_at};
    ghost use Rattle.policy.specs.Outcome.{Outcome};
    ghost use Rattle.turns.specs.Classes.{NamesOnly};
    ghost use Rattle.turns.specs.Doing.{Told, going, Fresh, SegmentTurn};
    ghost use Rattle.turns.specs.Stands.{step_op, step_told};
    ghost use Rattle.std.specs.Option.{option_map};
    ghost use Rattle.lists.specs.Lists.{part_of};
    ghost use Rattle.policy.specs.Known.{usable};
    ghost use Rattle.policy.specs.Private.{update_tests};
    ghost use Rattle.data_gates.specs.Data.{update_body};
    ghost use Rattle.turns.specs.Stands.{refusing};
    ghost use Rattle.policy.specs.Outcome.{Refused};
    ghost use Rattle.gate_parts.specs.Replies.{begins, KnownTo, IsKnown, answers, reply_of};
    ghost use Rattle.data_gates.specs.Updating.{act_of, doing_of, update_shows};

    /// Makes the private tests. An empty place, or one that may be signalled alone, gives UnknownSegno.
    #[tactic(auto, using(crate::proofs::Bounds::fetch_bounds, crate::proofs::Bounds::update_bounds))]
    pub fn start(
        who: &Caller,
        known: Option<&Known>,
        offset: u64,
        count: u64,
        pad: u64,
        words: &[u64; 64],
    ) -> Update
        requires class { who.now.class < most_classes }
        requires known { KnownTo who.now.class (option_map (λ k. k.now) known) }
        ensures act { act_of result ≡ begins (usable (option_map (λ k. k.now) known.entry)) (update_tests who.now.ring offset count pad) (λ k. SegmentTurn k.seg (update_body k.seg offset (part_of words.now pad count))) }
        ensures fresh { doing_of result ≡ Fresh }
        ensures class { result.class ≡ who.now.class }
    {
        let Some(known) = usable(known) else {
            return Update::refused(who.class, Rule::UnknownSegno, words);
        };
        if let Some(rule) = update_refusal(who.ring, known, offset, count, pad) {
            return Update::refused(who.class, rule, words);
        }
        Update {
            class: who.class,
            seg: known.seg,
            offset: offset as u8,
            count: count as u8,
            pad: pad as u8,
            words: *words,
            refusal: None,
            turn: Turn::new(Guard::Segment(who.class, known.seg)),
            rest: Rest::Shown(None),
            frame: 0,
            stored: 0,
            writes: 0,
        }
    }

    /// Starts again in place, as `start` does where the private tests pass: it is then the update of these words by
    /// a caller of the class.
    pub fn restart(
        &mut self,
        class: u8,
        known: &Known,
        offset: u8,
        count: u8,
        pad: u8,
        words: &[u64; 64],
    )
        requires class { class < most_classes }
        requires known { IsKnown known.now }
        requires some { 1 ≤ count }
        requires segment { offset + count ≤ most_words }
        requires in_pad { pad + count ≤ most_words }
        ensures act { act_of self.new ≡ SegmentTurn known.now.seg (update_body known.now.seg offset (part_of words.now pad count)) }
        ensures fresh { doing_of self.new ≡ Fresh }
        ensures class { self.new.class ≡ class }
    {
        self.class = class;
        self.seg = known.seg;
        self.offset = offset;
        self.count = count;
        self.pad = pad;
        self.words = *words;
        self.refusal = None;
        self.turn = Turn::new(Guard::Segment(class, known.seg));
        self.rest = Rest::Shown(None);
        self.frame = 0;
        self.stored = 0;
        self.writes = 0;
    }

    /// The gate that a private test refuses.
    fn refused(class: u8, rule: Rule, words: &[u64; 64]) -> Update
        requires { class < most_classes }
        ensures act { act_of result ≡ refusing (Refused rule) }
        ensures fresh { doing_of result ≡ Fresh }
        ensures class { result.class ≡ class }
    {
        Update {
            class,
            seg: SegId {
                mentor: 0,
                serial: 0,
            },
            offset: 0,
            count: 1,
            pad: 0,
            words: *words,
            refusal: Some(rule),
            turn: Turn::new(Guard::Segment(
                class,
                SegId {
                    mentor: 0,
                    serial: 0,
                },
            )),
            rest: Rest::Shown(None),
            frame: 0,
            stored: 0,
            writes: 0,
        }
    }

    /// The operation of the next step.
    #[tactic(auto, using(crate::proofs::Updated::word_asked, turns::proofs::Turning::held_asks, turns::proofs::Turning::turning_asks))]
    #[inline(always)]
    pub fn next_op(&self) -> Op
        ensures op { result ≡ op_at self.now.class (step_op self.now.class (act_of self.now) (doing_of self.now)) }
        ensures class { NamesOnly self.now.class result }
    {
        if self.refusal.is_some() {
            return Op::Nothing;
        }
        match self.rest {
            Rest::Home => Op::Load(home_addr(self.class, self.seg)),
            Rest::Words => Op::Store(
                frame_word_addr(self.class, self.frame, self.offset + self.stored),
                self.words[(self.pad + self.stored) as usize],
            ),
            Rest::Count => Op::Add(writes_addr(self.class, self.seg), 1),
            Rest::Shown(_) => self.turn.next_op(),
        }
    }

    /// Takes the answer to the operation of the step.
    #[inline(always)]
    pub fn absorb(&mut self, answer: u64) -> Outcome
        ensures outcome { result ≡ answers (step_told (act_of self.old) (doing_of self.old) answer) None }
        ensures doing { doing_of self.new ≡ (step_told (act_of self.old) (doing_of self.old) answer).doing }
        ensures act { act_of self.new ≡ act_of self.old }
        ensures class { self.new.class ≡ self.old.class }
    {
        if let Some(rule) = self.refusal {
            return Outcome::Done(Reply::refused(rule));
        }
        match self.rest {
            Rest::Home => self.take_home(answer),
            Rest::Words => self.word_stored(answer),
            Rest::Count => self.take_count(answer),
            Rest::Shown(_) => return self.take_turn(answer),
        }
        Outcome::Going
    }

    /// The home was loaded.
    #[tactic(auto, using(turns::proofs::Turning::load_told, turns::proofs::Turning::turning_closed))]
    fn take_home(&mut self, answer: u64)
        requires begun { self.old.refusal ≡ None }
        requires home { self.old.rest ≡ Rest.Home }
        ensures told { step_told (act_of self.old) (doing_of self.old) answer ≡ going (doing_of self.new) }
        ensures act { act_of self.new ≡ act_of self.old }
        ensures class { self.new.class ≡ self.old.class }
    {
        match home_taken(answer) {
            Home::Resident { frame, .. } => {
                self.frame = frame;
                self.stored = 0;
                self.rest = Rest::Words;
            }
            Home::Deleted => {
                self.turn.finish();
                self.rest = Rest::Shown(Some(Rule::Gone));
            }
            _ => {
                self.turn.finish();
                self.rest = Rest::Shown(Some(Rule::NotIn));
            }
        }
    }

    /// A word was stored.
    #[tactic(auto, using(crate::proofs::Updated::word_told))]
    fn word_stored(&mut self, answer: u64)
        requires begun { self.old.refusal ≡ None }
        requires words { self.old.rest ≡ Rest.Words }
        ensures told { step_told (act_of self.old) (doing_of self.old) answer ≡ going (doing_of self.new) }
        ensures act { act_of self.new ≡ act_of self.old }
        ensures class { self.new.class ≡ self.old.class }
    {
        self.stored += 1;
        if self.stored == self.count {
            self.rest = Rest::Count;
        }
    }

    /// The write was counted.
    #[tactic(auto, using(turns::proofs::Turning::add_told, turns::proofs::Turning::turning_closed))]
    fn take_count(&mut self, answer: u64)
        requires begun { self.old.refusal ≡ None }
        requires count { self.old.rest ≡ Rest.Count }
        ensures told { step_told (act_of self.old) (doing_of self.old) answer ≡ going (doing_of self.new) }
        ensures act { act_of self.new ≡ act_of self.old }
        ensures class { self.new.class ≡ self.old.class }
    {
        self.writes = answer.wrapping_add(1);
        self.turn.finish();
        self.rest = Rest::Shown(None);
    }

    /// The turn takes a step outside its body.
    #[tactic(auto, using(turns::proofs::Turning::turning_told))]
    fn take_turn(&mut self, answer: u64) -> Outcome
        requires begun { self.old.refusal ≡ None }
        requires outside { holds self.old.rest ≡ false }
        ensures outcome { result ≡ answers (step_told (act_of self.old) (doing_of self.old) answer) None }
        ensures doing { doing_of self.new ≡ (step_told (act_of self.old) (doing_of self.old) answer).doing }
        ensures act { act_of self.new ≡ act_of self.old }
        ensures class { self.new.class ≡ self.old.class }
    {
        match self.turn.absorb(answer) {
            TurnStep::Going => Outcome::Going,
            TurnStep::Held => {
                self.rest = Rest::Home;
                Outcome::Going
            }
            TurnStep::Poll => Outcome::Poll,
            TurnStep::Finished => Outcome::Done(self.reply()),
        }
    }

    /// The reply of the body.
    fn reply(&self) -> Reply
        ensures { result ≡ reply_of (update_shows self.now.writes self.now.rest) }
    {
        match self.rest {
            Rest::Shown(Some(rule)) => Reply::refused(rule),
            _ => Reply::ok(self.writes),
        }
    }
}
