//! Makeknown: a look at the class of the mentor, whose body loads the entry.

ghost use Rattle.std.specs.Prelude.{◌≡◌, ◌<◌, Some, length};
ghost use Rattle.words_layout.specs.Limits.{IsIdentity};
ghost use Rattle.turns.specs.Parts.{look_in_body};
ghost use Rattle.turns.specs.declared.guard.Guard.{Guard};
ghost use Rattle.words_layout.specs.Sizes.{entry_count, most_classes};
ghost use Rattle.words_layout.specs.declared.coding.Alias.{Alias};
ghost use Rattle.tree_gates.specs.MakeKnownRest.{loads, IsEntry};
ghost use Rattle.tree_gates.specs.declared.make_known.Rest.{Rest};

use gate_parts::{entry_taken, no_segment};
use labels::ClassTable;
use policy::{
    Caller, Known, Outcome, Reply, Rights, Rule, brackets_in, in_table, known_by,
    make_known_refusal, usable, verdict,
};
use rings::Ring;
use turns::{Guard, Look, LookStep};
use words_layout::{Alias, Op, entry_addr};

/// What the body does next.
#[derive(Clone, Copy, Debug, PartialEq, Eq)]
enum Rest {
    /// To load the entry.
    Entry,
    /// The body isn't begun, or it has ended with a refusal.
    Refused(Rule),
    /// The body has ended with this entry, by which a segment is made known.
    Learns(Alias),
}

/// Makeknown: the segment of an entry of a mentor, for the known table.
#[derive(Drop)]
pub struct MakeKnown {
    class: u8,
    ring: Ring,
    /// The mentor, and the entry of it.
    mentor: Known,
    entry: u8,
    /// What is wanted of the segment.
    want: Rights,
    /// The first broken private test.
    refusal: Option<Rule>,
    look: Look,
    rest: Rest,
    /// The entry that was made known.
    found: Option<Alias>,
    ghost guard_is: { look.guard ≡ Guard.Class mentor.class },
    ghost in_limits: { (class < most_classes) × (mentor.class < most_classes) × IsIdentity mentor.seg × (entry < entry_count) },
    ghost in_body: { look_in_body look.part ≡ loads rest },
    ghost fits: { (a : Alias) → rest ≡ Rest.Learns a → IsEntry a },
    ghost found_fits: { (a : Alias) → found ≡ Some a → IsEntry a },
}

impl MakeKnown {
    ghost use Rattle.std.specs.Prelude.{ℕ, List, false, Some, None};
    ghost use Rattle.std.specs.Option.{option_map};
    ghost use Rattle.labels.specs.Label.{ClassEntry};
    ghost use Rattle.words_layout.specs.Named.{op_at};
    ghost use Rattle.words_layout.specs.Coding.{entry_of};
    ghost use Rattle.policy.specs.Known.{Known, usable, in_table};
    ghost use Rattle.policy.specs.Outcome.{Refused, shown};
    ghost use Rattle.policy.specs.Verdict.{first_broken};
    ghost use Rattle.policy.specs.Private.{make_known_tests};
    ghost use Rattle.turns.specs.Classes.{LoadsOnly};
    ghost use Rattle.turns.specs.Doing.{Told, Fresh, going};
    ghost use Rattle.turns.specs.Stands.{step_op, step_told, refusing};
    ghost use Rattle.gate_parts.specs.Replies.{IsKnown, KnownTo, answers, begins, unless_broken, reply_of};
    ghost use Rattle.tree_gates.specs.MakingKnown.{make_known_by, act_of, doing_of, make_known_shows, learnt, FoundBy};

    /// Begins it. `full` says that the caller's known table has no empty place.
    #[tactic(auto, using(policy::proofs::Passed::usable_known, crate::proofs::Begun::usable_within))]
    pub fn start(
        who: &Caller,
        known: Option<&Known>,
        entry: u64,
        mode: u64,
        full: bool,
    ) -> MakeKnown
        requires who { who.now.class < most_classes }
        requires known { KnownTo who.now.class (option_map (λ k. k.now) known) }
        ensures act { (table : List ClassEntry) → act_of table result ≡ begins (usable (option_map (λ k. k.now) known.entry)) (make_known_tests who.now.ring entry mode full)
            (make_known_by table who.now.class who.now.ring entry mode) }
        ensures fresh { (table : List ClassEntry) → doing_of table result ≡ Fresh }
        ensures class { result.class ≡ who.now.class }
        ensures found { result.found ≡ None }
        ensures mentor { (k : Known) → usable (option_map (λ k. k.now) known.entry) ≡ Some k → result.mentor ≡ k }
    {
        match usable(known) {
            Some(known) => MakeKnown::begun(who, known, entry, mode, full),
            None => MakeKnown::refused(who, no_segment(), Rule::UnknownSegno),
        }
    }

    /// Begins it with a known segment that may be used.
    #[tactic(auto, using(policy::proofs::Passed::make_known_entry, policy::proofs::Passed::make_known_mode))]
    fn begun(who: &Caller, known: &Known, entry: u64, mode: u64, full: bool) -> MakeKnown
        requires who { who.now.class < most_classes }
        requires known { IsKnown known.now }
        ensures act { (table : List ClassEntry) → act_of table result ≡ unless_broken (first_broken (make_known_tests who.now.ring entry mode full known.now))
            (make_known_by table who.now.class who.now.ring entry mode known.now) }
        ensures fresh { (table : List ClassEntry) → doing_of table result ≡ Fresh }
        ensures class { result.class ≡ who.now.class }
        ensures found { result.found ≡ None }
        ensures mentor { result.mentor ≡ known.now }
    {
        if let Some(rule) = make_known_refusal(who.ring, known, entry, mode, full) {
            return MakeKnown::refused(who, *known, rule);
        }
        MakeKnown {
            class: who.class,
            ring: who.ring,
            mentor: *known,
            entry: entry as u8,
            want: Rights::wanted(mode),
            refusal: None,
            look: Look::new(Guard::Class(known.class)),
            rest: Rest::Refused(Rule::NoEntry),
            found: None,
        }
    }

    /// Refused by a private test.
    fn refused(who: &Caller, mentor: Known, rule: Rule) -> MakeKnown
        requires who { who.now.class < most_classes }
        requires mentor { IsKnown mentor }
        ensures act { (table : List ClassEntry) → act_of table result ≡ refusing (Refused rule) }
        ensures fresh { (table : List ClassEntry) → doing_of table result ≡ Fresh }
        ensures class { result.class ≡ who.now.class }
        ensures found { result.found ≡ None }
        ensures mentor { result.mentor ≡ mentor }
    {
        MakeKnown {
            class: who.class,
            ring: who.ring,
            mentor,
            entry: 0,
            want: Rights::wanted(1),
            refusal: Some(rule),
            look: Look::new(Guard::Class(mentor.class)),
            rest: Rest::Refused(rule),
            found: None,
        }
    }

    /// The operation of the next step.
    #[tactic(auto, using(turns::proofs::Looking::body_asks, turns::proofs::Looking::looking_asks))]
    pub fn next_op(&self) -> Op
        ensures op { (d : ℕ) (table : List ClassEntry) → result ≡ op_at d (step_op d (act_of table self.now) (doing_of table self.now)) }
        ensures class { LoadsOnly self.now.mentor.class result }
    {
        if self.refusal.is_some() {
            return Op::Nothing;
        }
        match self.rest {
            Rest::Entry => Op::Load(entry_addr(self.mentor.class, self.mentor.seg, self.entry)),
            _ => self.look.next_op(),
        }
    }

    /// Takes the answer to the operation of the step.
    pub fn absorb(&mut self, table: &ClassTable, answer: u64) -> Outcome
        requires { self.old.class < length table.now }
        ensures outcome { result ≡ answers (step_told (act_of table.now self.old) (doing_of table.now self.old) answer) None }
        ensures doing { doing_of table.now self.new ≡ (step_told (act_of table.now self.old) (doing_of table.now self.old) answer).doing }
        ensures act { (any : List ClassEntry) → act_of any self.new ≡ act_of any self.old }
        ensures class { self.new.class ≡ self.old.class }
        ensures mentor { self.new.mentor ≡ self.old.mentor }
        ensures found { FoundBy self.old self.new (step_told (act_of table.now self.old) (doing_of table.now self.old) answer).takes }
    {
        if let Some(rule) = self.refusal {
            return Outcome::Done(Reply::refused(rule));
        }
        if let Rest::Entry = self.rest {
            self.take_entry(table, answer);
            Outcome::Going
        } else {
            self.take_look(answer)
        }
    }

    /// The entry was loaded.
    #[tactic(auto, using(turns::proofs::Looking::body_told, turns::proofs::Looking::looking_checked))]
    fn take_entry(&mut self, table: &ClassTable, answer: u64)
        requires begun { self.old.refusal ≡ None }
        requires next { self.old.rest ≡ Rest.Entry }
        requires table { self.old.class < length table.now }
        ensures told { step_told (act_of table.now self.old) (doing_of table.now self.old) answer ≡ going (doing_of table.now self.new) }
        ensures act { (any : List ClassEntry) → act_of any self.new ≡ act_of any self.old }
        ensures class { self.new.class ≡ self.old.class }
        ensures mentor { self.new.mentor ≡ self.old.mentor }
        ensures found { self.new.found ≡ self.old.found }
    {
        self.rest = self.judged(table, answer);
        self.look.check();
    }

    /// What the entry of this word comes to.
    #[tactic(auto, using(crate::proofs::Entries::entry_learnt))]
    fn judged(&self, table: &ClassTable, word: u64) -> Rest
        requires { self.now.class < length table.now }
        ensures shows { make_known_shows self.now.mentor.class self.now.want.0 result
            ≡ shown table.now self.now.class self.now.ring self.now.mentor.class self.now.want.0 (in_table table.now (entry_of word)) }
        ensures over { loads result ≡ false }
        ensures fits { (a : Alias) → result ≡ Rest.Learns a → IsEntry a }
    {
        let Some(alias) = in_table(table, entry_taken(word)) else {
            return Rest::Refused(Rule::NoEntry);
        };
        let Some(brackets) = brackets_in(&alias) else {
            return Rest::Refused(Rule::NoEntry);
        };
        match verdict(
            table.label(self.class),
            self.ring,
            table.label(alias.class),
            &brackets,
            self.want,
        ) {
            Ok(()) => Rest::Learns(alias),
            Err(rule) => Rest::Refused(rule),
        }
    }

    /// The look takes a step outside its body.
    #[tactic(auto, using(turns::proofs::Looking::looking_told))]
    fn take_look(&mut self, answer: u64) -> Outcome
        requires begun { self.old.refusal ≡ None }
        requires outside { loads self.old.rest ≡ false }
        ensures outcome { (table : List ClassEntry) → result ≡ answers (step_told (act_of table self.old) (doing_of table self.old) answer) None }
        ensures doing { (table : List ClassEntry) → doing_of table self.new ≡ (step_told (act_of table self.old) (doing_of table self.old) answer).doing }
        ensures act { (any : List ClassEntry) → act_of any self.new ≡ act_of any self.old }
        ensures class { self.new.class ≡ self.old.class }
        ensures mentor { self.new.mentor ≡ self.old.mentor }
        ensures found { (table : List ClassEntry) → FoundBy self.old self.new (step_told (act_of table self.old) (doing_of table self.old) answer).takes }
    {
        match self.look.absorb(answer) {
            LookStep::Going => Outcome::Going,
            LookStep::Body => {
                self.rest = Rest::Entry;
                Outcome::Going
            }
            LookStep::Poll => Outcome::Poll,
            LookStep::Accepted => {
                if let Rest::Learns(alias) = self.rest {
                    self.found = Some(alias);
                }
                Outcome::Done(self.reply())
            }
        }
    }

    /// The reply of the body.
    fn reply(&self) -> Reply
        ensures { result ≡ reply_of (make_known_shows self.now.mentor.class self.now.want.0 self.now.rest) }
    {
        match self.rest {
            Rest::Refused(rule) => Reply::refused(rule),
            _ => Reply::ok(0),
        }
    }

    /// The entry that the accepted body loaded, after Done with code 0, else None.
    pub fn found(&self) -> Option<Alias>
        ensures { result ≡ self.now.found }
    {
        self.found
    }

    /// The segment that was made known, with the rights that the mode gives, after Done with code 0, else None.
    pub fn learnt(&self) -> Option<Known>
        ensures { result ≡ learnt self.now }
    {
        let alias = self.found?;
        let rights = if self.want == Rights::MODIFY {
            Rights::SIGNAL
        } else {
            self.want
        };
        Some(known_by(self.mentor.class, &alias, rights))
    }
}
