//! Swapout: the class's turn and, within it, the segment's, in which the segment is taken out to a page.

ghost use Rattle.std.specs.Prelude.{◌≡◌, ◌<◌, ◌≤◌, true};
ghost use Rattle.words_layout.specs.Sizes.{most_classes, most_pages};
ghost use Rattle.gate_parts.specs.InTurns.{of_class, runs};
ghost use Rattle.swap_gates.specs.OutBody.{out_left};

use crate::out_body::OutBody;
use gate_parts::Work;
use policy::{Caller, Known, Outcome, Reply, Rule, swap_out_refusal, usable};
use words_layout::Op;

/// Swapout: a segment out of its frame, to its page or to the least free one of its class.
#[derive(Drop)]
pub struct SwapOut {
    class: u8,
    work: Work<OutBody>,
    /// The reply, from the effect on.
    reply: Option<Reply>,
    ghost limit: { class < most_classes },
    ghost class_is: { of_class class work ≡ true },
    ghost runs: { runs out_left work ≡ true },
}

impl SwapOut {
    ghost use Rattle.std.specs.Prelude.{ℕ, None};
    ghost use Rattle.std.specs.Option.{option_map};
    ghost use Rattle.words_layout.specs.Named.{op_at};
    ghost use Rattle.policy.specs.Known.{usable};
    ghost use Rattle.policy.specs.Private.{swap_out_tests};
    ghost use Rattle.turns.specs.Classes.{NamesOnly};
    ghost use Rattle.turns.specs.Doing.{Told, Fresh, ClassTurn};
    ghost use Rattle.turns.specs.Stands.{step_op, step_told};
    ghost use Rattle.gate_parts.specs.Replies.{begins, IsKnown, KnownTo, answers, reply_kept};
    ghost use Rattle.swap_gates.specs.Swap.{swap_out_body};
    ghost use Rattle.swap_gates.specs.SwappingOut.{act_of, doing_of};

    /// Makes the private tests. `pool` is how many pages the class has. An empty place, or one that may be signalled
    /// alone, gives UnknownSegno.
    pub fn start(who: &Caller, known: Option<&Known>, pool: u8) -> SwapOut
        requires class { who.now.class < most_classes }
        requires known { KnownTo who.now.class (option_map (λ k. k.now) known) }
        requires pool { pool ≤ most_pages }
        ensures act { act_of result ≡ begins (usable (option_map (λ k. k.now) known.entry)) (swap_out_tests who.now.ring) (λ k. ClassTurn (swap_out_body pool k)) }
        ensures fresh { doing_of result ≡ Fresh }
        ensures class { result.class ≡ who.now.class }
        ensures reply { result.reply ≡ None }
    {
        let Some(known) = usable(known) else {
            return SwapOut::new(who.class, Work::Refused(Rule::UnknownSegno));
        };
        match swap_out_refusal(who.ring, known) {
            Some(rule) => SwapOut::new(who.class, Work::Refused(rule)),
            None => {
                let body = OutBody::new(*known, pool);
                SwapOut::new(who.class, Work::new(who.class, body))
            }
        }
    }

    /// The gate before its first step.
    fn new(class: u8, work: Work<OutBody>) -> SwapOut
        requires limit { class < most_classes }
        requires class { of_class class work ≡ true }
        requires runs { runs out_left work ≡ true }
        ensures work { result.work ≡ work }
        ensures class { result.class ≡ class }
        ensures reply { result.reply ≡ None }
    {
        SwapOut {
            class,
            work,
            reply: None,
        }
    }

    /// The operation of the next step.
    pub fn next_op(&self) -> Op
        ensures op { result ≡ op_at self.now.class (step_op self.now.class (act_of self.now) (doing_of self.now)) }
        ensures class { NamesOnly self.now.class result }
    {
        self.work.next_op(self.class)
    }

    /// Takes the answer to the operation of the step.
    pub fn absorb(&mut self, answer: u64) -> Outcome
        ensures outcome { result ≡ answers (step_told (act_of self.old) (doing_of self.old) answer) self.old.reply }
        ensures doing { doing_of self.new ≡ (step_told (act_of self.old) (doing_of self.old) answer).doing }
        ensures reply { self.new.reply ≡ reply_kept (step_told (act_of self.old) (doing_of self.old) answer) self.old.reply }
        ensures act { act_of self.new ≡ act_of self.old }
        ensures class { self.new.class ≡ self.old.class }
    {
        self.work.absorb(answer, &mut self.reply)
    }

    /// The reply: from the effect on, also before the class's turn is over.
    pub fn effect(&self) -> Option<Reply>
        ensures { result ≡ self.now.reply }
    {
        self.reply
    }
}
