//! Ticket: 1 is added to the sequencer.

ghost use Rattle.std.specs.Prelude.{◌<◌};
ghost use Rattle.words_layout.specs.Limits.{IsIdentity};
ghost use Rattle.words_layout.specs.Sizes.{most_classes};

use gate_parts::no_segment;
use policy::{Caller, Known, Outcome, Reply, Rule, ticket_refusal, usable};
use words_layout::{Op, sequencer_addr};

/// Draw the next ticket of a sequencer.
#[derive(Drop)]
pub struct Ticket {
    class: u8,
    known: Known,
    /// The first broken private test.
    refusal: Option<Rule>,
    ghost in_limits: { (class < most_classes) × (known.class < most_classes) × IsIdentity known.seg },
}

impl Ticket {
    ghost use Rattle.std.specs.Prelude.{◌≡◌, None};
    ghost use Rattle.words_layout.specs.Named.{op_at};
    ghost use Rattle.turns.specs.Classes.{NamesOnly};
    ghost use Rattle.turns.specs.Doing.{act_op, act_told};
    ghost use Rattle.std.specs.Option.{option_map};
    ghost use Rattle.policy.specs.Private.{ticket_tests};
    ghost use Rattle.policy.specs.Known.{usable};
    ghost use Rattle.gate_parts.specs.Replies.{answers, begins, KnownTo};
    ghost use Rattle.evc_gates.specs.Counting.{ticket_act};

    /// Makes the private tests. An empty place, or one that may be signalled alone, gives UnknownSegno.
    pub fn start(who: &Caller, known: Option<&Known>) -> Ticket
        requires class { who.now.class < most_classes }
        requires known { KnownTo who.now.class (option_map (λ k. k.now) known) }
        ensures act { ticket_act result.refusal result.known ≡ begins (usable (option_map (λ k. k.now) known.entry)) (ticket_tests who.now.ring) (ticket_act None) }
        ensures class { result.class ≡ who.now.class }
    {
        match usable(known) {
            None => Ticket {
                class: who.class,
                known: no_segment(),
                refusal: Some(Rule::UnknownSegno),
            },
            Some(known) => Ticket {
                class: who.class,
                known: *known,
                refusal: ticket_refusal(who.ring, known),
            },
        }
    }

    /// The operation of the next step.
    pub fn next_op(&self) -> Op
        ensures op { result ≡ op_at self.now.class (act_op (ticket_act self.now.refusal self.now.known)) }
        ensures class { NamesOnly self.now.class result }
    {
        if self.refusal.is_some() {
            return Op::Nothing;
        }
        Op::Add(sequencer_addr(self.class, self.known.seg), 1)
    }

    /// Takes the answer to the operation of the step.
    pub fn absorb(&mut self, answer: u64) -> Outcome
        ensures outcome { result ≡ answers (act_told (ticket_act self.old.refusal self.old.known) answer) None }
        ensures same { self.new ≡ self.old }
    {
        match self.refusal {
            Some(rule) => Outcome::Done(Reply::refused(rule)),
            None => Outcome::Done(Reply::ok(answer)),
        }
    }
}
