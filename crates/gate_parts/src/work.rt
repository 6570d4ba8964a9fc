//! A gate whose body stands in the turn of a class, and from where it enters it in the turn of a segment.

ghost use Rattle.words_layout.specs.Sizes.{most_classes};

use crate::body::Body;
use crate::next::Next;
use policy::{Outcome, Reply, Rule};
use turns::{Held, NestedStep, NestedTurn};
use words_layout::Op;

/// A gate that is begun: its turns and its body.
#[derive(Drop)]
pub struct InTurns<B> {
    turns: NestedTurn,
    body: B,
}

/// What a gate does.
#[derive(Drop)]
pub enum Work<B> {
    /// Nothing: a private test refuses it by this rule.
    Refused(Rule),
    /// Its body, in its turns.
    Begun(InTurns<B>),
}

impl<B: Body> InTurns<B> {
    ghost use Rattle.std.specs.Prelude.{◌≡◌, ◌<◌, ◌||◌, true, false};
    ghost use Rattle.words_layout.specs.Named.{op_at};
    ghost use Rattle.turns.specs.Classes.{NamesOnly};
    ghost use Rattle.turns.specs.Doing.{ClassTurn, going};
    ghost use Rattle.turns.specs.Stands.{step_op, step_told};
    ghost use Rattle.turns.specs.Nest.{in_outer, in_inner};
    ghost use Rattle.gate_parts.specs.Bodies.{next_of, is_in_segment, is_ended_in};
    ghost use Rattle.gate_parts.specs.InTurns.{far_by, fits_by, Stepped};

    /// The operation of the next step.
    #[tactic(auto, using(crate::proofs::Far::class_asked, crate::proofs::Far::segment_asked, crate::proofs::Far::turns_asked, crate::proofs::Far::class_acts, crate::proofs::Far::segment_acts))]
    fn next_op(&self, class: u8) -> Op
        requires fits { fits_by B.left self.now ≡ true }
        requires class { self.now.turns.class ≡ class }
        requires limit { class < most_classes }
        ensures op { result ≡ op_at class (step_op class (ClassTurn (B.whole self.now.body)) (far_by B.whole B.left self.now)) }
        ensures class { NamesOnly class result }
    {
        match self.turns.held() {
            Held::Neither => self.turns.next_op(),
            Held::Class | Held::Segment => self.body.op(class),
        }
    }

    /// Takes the answer to the operation of the step. The reply is kept from the effect on.
    #[tactic(auto, using(crate::proofs::Far::class_told, crate::proofs::Far::segment_told, crate::proofs::Far::class_acts, crate::proofs::Far::segment_acts, crate::proofs::Far::stays))]
    fn absorb(&mut self, answer: u64, kept: &mut Option<Reply>) -> Outcome
        requires { fits_by B.left self.old ≡ true }
        ensures step { Stepped (step_told (ClassTurn (B.whole self.old.body)) (far_by B.whole B.left self.old) answer) kept.old kept.new result (far_by B.whole B.left self.new) }
        ensures whole { B.whole self.new.body ≡ B.whole self.old.body }
        ensures class { self.new.turns.class ≡ self.old.turns.class }
        ensures fits { fits_by B.left self.new ≡ true }
    {
        match self.turns.held() {
            Held::Neither => self.take_turn(answer, kept),
            Held::Class => {
                self.body.absorb(answer);
                self.go_on_in_class();
                Outcome::Going
            }
            Held::Segment => {
                self.body.absorb(answer);
                self.go_on_in_segment();
                Outcome::Going
            }
        }
    }

    /// In the class's turn: the body goes on, enters the turn of a segment, or has ended.
    #[tactic(auto, using(crate::proofs::Far::class_closed, crate::proofs::Far::segment_entered, crate::proofs::Far::class_fits, crate::proofs::Far::closed_fits, crate::proofs::Far::entered_fits))]
    fn go_on_in_class(&mut self)
        requires { in_outer self.old.turns.part ≡ true }
        ensures far { far_by B.whole B.left self.new ≡ far_by B.whole B.left self.old }
        ensures whole { B.whole self.new.body ≡ B.whole self.old.body }
        ensures class { self.new.turns.class ≡ self.old.turns.class }
        ensures fits { fits_by B.left self.new ≡ true }
    {
        match self.body.next() {
            Next::InClass => {}
            Next::Ended => self.turns.finish(),
            Next::InSegment(seg) | Next::EndedIn(seg) => self.turns.enter(seg),
        }
    }

    /// In the segment's turn: the body goes on, or has ended.
    #[tactic(auto, using(crate::proofs::Far::segment_closed, crate::proofs::Far::segment_fits, crate::proofs::Far::left_fits))]
    fn go_on_in_segment(&mut self)
        requires held { in_inner self.old.turns.part ≡ true }
        requires body { (is_in_segment (next_of (B.left self.old.body)) || is_ended_in (next_of (B.left self.old.body))) ≡ true }
        ensures far { far_by B.whole B.left self.new ≡ far_by B.whole B.left self.old }
        ensures whole { B.whole self.new.body ≡ B.whole self.old.body }
        ensures class { self.new.turns.class ≡ self.old.turns.class }
        ensures fits { fits_by B.left self.new ≡ true }
    {
        if let Next::EndedIn(_) = self.body.next() {
            self.turns.finish();
        }
    }

    /// The turns take a step outside the body.
    #[tactic(auto, using(crate::proofs::Far::turns_told, crate::proofs::Far::turns_fit))]
    fn take_turn(&mut self, answer: u64, kept: &mut Option<Reply>) -> Outcome
        requires outside { (in_outer self.old.turns.part || in_inner self.old.turns.part) ≡ false }
        requires fits { fits_by B.left self.old ≡ true }
        ensures step { Stepped (step_told (ClassTurn (B.whole self.old.body)) (far_by B.whole B.left self.old) answer) kept.old kept.new result (far_by B.whole B.left self.new) }
        ensures whole { B.whole self.new.body ≡ B.whole self.old.body }
        ensures class { self.new.turns.class ≡ self.old.turns.class }
        ensures fits { fits_by B.left self.new ≡ true }
    {
        match self.turns.absorb(answer) {
            NestedStep::Going => Outcome::Going,
            NestedStep::Poll => Outcome::Poll,
            NestedStep::Held => {
                self.body.begin();
                self.go_on_in_class();
                Outcome::Going
            }
            NestedStep::Entered => {
                self.go_on_in_segment();
                Outcome::Going
            }
            NestedStep::Effect => {
                *kept = Some(self.body.reply());
                Outcome::Going
            }
            NestedStep::Finished => Outcome::Done(self.body.reply()),
            NestedStep::Over => Outcome::Done(kept.unwrap_or(Reply::ok(0))),
        }
    }
}

impl<B: Body> Work<B> {
    ghost use Rattle.std.specs.Prelude.{◌≡◌, ◌<◌, ℕ, true};
    ghost use Rattle.words_layout.specs.Named.{op_at};
    ghost use Rattle.turns.specs.Classes.{NamesOnly};
    ghost use Rattle.turns.specs.Doing.{Fresh, ClassTurn};
    ghost use Rattle.turns.specs.Stands.{step_op, step_told};
    ghost use Rattle.gate_parts.specs.InTurns.{act_by, doing_by, of_class, runs, Stepped};

    /// A body that is to run in a turn of the class.
    pub fn new(class: u8, body: B) -> Work<B>
        requires { class < most_classes }
        ensures act { act_by B.whole result ≡ ClassTurn (B.whole body) }
        ensures fresh { doing_by B.whole B.left result ≡ Fresh }
        ensures class { of_class class result ≡ true }
        ensures runs { runs B.left result ≡ true }
    {
        Work::Begun(InTurns {
            turns: NestedTurn::new(class),
            body,
        })
    }

    /// The operation of the next step.
    pub fn next_op(&self, class: u8) -> Op
        requires class { of_class class self.now ≡ true }
        requires limit { class < most_classes }
        requires runs { runs B.left self.now ≡ true }
        ensures op { result ≡ op_at class (step_op class (act_by B.whole self.now) (doing_by B.whole B.left self.now)) }
        ensures class { NamesOnly class result }
    {
        match self {
            Work::Refused(_) => Op::Nothing,
            Work::Begun(gate) => gate.next_op(class),
        }
    }

    /// Takes the answer to the operation of the step. The reply is kept from the effect on.
    pub fn absorb(&mut self, answer: u64, kept: &mut Option<Reply>) -> Outcome
        requires { runs B.left self.old ≡ true }
        ensures step { Stepped (step_told (act_by B.whole self.old) (doing_by B.whole B.left self.old) answer) kept.old kept.new result (doing_by B.whole B.left self.new) }
        ensures act { act_by B.whole self.new ≡ act_by B.whole self.old }
        ensures class { (d : ℕ) → of_class d self.new ≡ of_class d self.old }
        ensures runs { runs B.left self.new ≡ true }
    {
        match self {
            Work::Refused(rule) => Outcome::Done(Reply::refused(*rule)),
            Work::Begun(gate) => gate.absorb(answer, kept),
        }
    }
}
