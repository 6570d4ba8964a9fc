//! Advance: 1 is added to the component of the caller's class.

ghost use Rattle.std.specs.Prelude.{◌<◌};
ghost use Rattle.words_layout.specs.Limits.{IsIdentity};
ghost use Rattle.words_layout.specs.Sizes.{most_classes};

use gate_parts::no_segment;
use policy::{Caller, Known, Outcome, Reply, Rule, advance_refusal};
use words_layout::{Op, component_addr};

/// Advance an eventcount by one.
#[derive(Drop)]
pub struct Advance {
    class: u8,
    known: Known,
    /// The first broken private test.
    refusal: Option<Rule>,
    ghost in_limits: { (class < most_classes) × (known.class < most_classes) × IsIdentity known.seg },
}

impl Advance {
    ghost use Rattle.std.specs.Prelude.{◌≡◌, None};
    ghost use Rattle.words_layout.specs.Named.{op_at};
    ghost use Rattle.turns.specs.Classes.{NamesOnly};
    ghost use Rattle.turns.specs.Doing.{act_op, act_told};
    ghost use Rattle.std.specs.Option.{option_map};
    ghost use Rattle.policy.specs.Private.{advance_tests};
    ghost use Rattle.gate_parts.specs.Replies.{answers, begins, KnownTo};
    ghost use Rattle.evc_gates.specs.Counting.{advance_act};

    /// Makes the private tests. An empty place gives UnknownSegno, and a place that may be signalled alone is no empty one.
    pub fn start(who: &Caller, known: Option<&Known>) -> Advance
        requires class { who.now.class < most_classes }
        requires known { KnownTo who.now.class (option_map (λ k. k.now) known) }
        ensures act { advance_act result.refusal result.known ≡ begins (option_map (λ k. k.now) known.entry) (advance_tests who.now.ring) (advance_act None) }
        ensures class { result.class ≡ who.now.class }
    {
        match known {
            None => Advance {
                class: who.class,
                known: no_segment(),
                refusal: Some(Rule::UnknownSegno),
            },
            Some(known) => Advance {
                class: who.class,
                known: *known,
                refusal: advance_refusal(who.ring, known),
            },
        }
    }

    /// The operation of the next step.
    pub fn next_op(&self) -> Op
        ensures op { result ≡ op_at self.now.class (act_op (advance_act self.now.refusal self.now.known)) }
        ensures class { NamesOnly self.now.class result }
    {
        if self.refusal.is_some() {
            return Op::Nothing;
        }
        Op::Add(
            component_addr(self.class, self.known.class, self.known.seg),
            1,
        )
    }

    /// Takes the answer to the operation of the step.
    pub fn absorb(&mut self, answer: u64) -> Outcome
        ensures outcome { result ≡ answers (act_told (advance_act self.old.refusal self.old.known) answer) None }
        ensures same { self.new ≡ self.old }
    {
        match self.refusal {
            Some(rule) => Outcome::Done(Reply::refused(rule)),
            None => Outcome::Done(Reply::ok(answer.wrapping_add(1))),
        }
    }
}
