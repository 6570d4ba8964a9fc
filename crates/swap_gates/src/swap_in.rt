//! Swapin: the class's turn and, within it, the segment's, in which the segment is brought into a frame.

ghost use Rattle.std.specs.Prelude.{◌≡◌, ◌<◌, ◌≤◌, true};
ghost use Rattle.words_layout.specs.Sizes.{most_classes, most_frames};
ghost use Rattle.gate_parts.specs.InTurns.{of_class, runs};
ghost use Rattle.swap_gates.specs.InBody.{in_left};

use crate::in_body::InBody;
use gate_parts::Work;
use policy::{Caller, Known, Outcome, Reply, Rule, swap_in_refusal, usable};
use words_layout::Op;

/// Swapin: a segment into the least free frame of its class.
#[derive(Drop)]
pub struct SwapIn {
    class: u8,
    work: Work<InBody>,
    /// The reply, from the effect on.
    reply: Option<Reply>,
    ghost limit: { class < most_classes },
    ghost class_is: { of_class class work ≡ true },
    ghost runs: { runs in_left work ≡ true },
}

impl SwapIn {
    ghost use Rattle.std.specs.Prelude.{ℕ, None};
    ghost use Rattle.std.specs.Option.{option_map};
    ghost use Rattle.words_layout.specs.Named.{op_at};
    ghost use Rattle.policy.specs.Known.{usable};
    ghost use Rattle.policy.specs.Private.{swap_in_tests};
    ghost use Rattle.turns.specs.Classes.{NamesOnly};
    ghost use Rattle.turns.specs.Doing.{Told, Fresh, ClassTurn};
    ghost use Rattle.turns.specs.Stands.{step_op, step_told};
    ghost use Rattle.gate_parts.specs.Replies.{begins, IsKnown, KnownTo, answers, reply_kept};
    ghost use Rattle.swap_gates.specs.Swap.{swap_in_body};
    ghost use Rattle.swap_gates.specs.SwappingIn.{act_of, doing_of};

    /// Makes the private tests. `pool` is how many frames the class has. An empty place, or one that may be signalled
    /// alone, gives UnknownSegno.
    #[tactic(auto, using(policy::proofs::Passed::swap_in_size))]
    pub fn start(who: &Caller, known: Option<&Known>, pool: u8) -> SwapIn
        requires class { who.now.class < most_classes }
        requires known { KnownTo who.now.class (option_map (λ k. k.now) known) }
        requires pool { pool ≤ most_frames }
        ensures act { act_of result ≡ begins (usable (option_map (λ k. k.now) known.entry)) (swap_in_tests who.now.ring) (λ k. ClassTurn (swap_in_body pool k)) }
        ensures fresh { doing_of result ≡ Fresh }
        ensures class { result.class ≡ who.now.class }
        ensures reply { result.reply ≡ None }
    {
        let Some(known) = usable(known) else {
            return SwapIn::new(who.class, Work::Refused(Rule::UnknownSegno));
        };
        match swap_in_refusal(who.ring, known) {
            Some(rule) => SwapIn::new(who.class, Work::Refused(rule)),
            None => {
                let body = InBody::new(*known, pool);
                SwapIn::new(who.class, Work::new(who.class, body))
            }
        }
    }

    /// The gate before its first step.
    fn new(class: u8, work: Work<InBody>) -> SwapIn
        requires limit { class < most_classes }
        requires class { of_class class work ≡ true }
        requires runs { runs in_left work ≡ true }
        ensures work { result.work ≡ work }
        ensures class { result.class ≡ class }
        ensures reply { result.reply ≡ None }
    {
        SwapIn {
            class,
            work,
            reply: None,
        }
    }

    /// The operation of the next step.
    pub fn next_op(&self) -> Op
        ensures op { result ≡ op_at self.now.class (step_op self.now.class (act_of self.now) (doing_of self.now)) }
        ensures class { NamesOnly self.now.class result }
    {
        self.work.next_op(self.class)
    }

    /// Takes the answer to the operation of the step.
    pub fn absorb(&mut self, answer: u64) -> Outcome
        ensures outcome { result ≡ answers (step_told (act_of self.old) (doing_of self.old) answer) self.old.reply }
        ensures doing { doing_of self.new ≡ (step_told (act_of self.old) (doing_of self.old) answer).doing }
        ensures reply { self.new.reply ≡ reply_kept (step_told (act_of self.old) (doing_of self.old) answer) self.old.reply }
        ensures act { act_of self.new ≡ act_of self.old }
        ensures class { self.new.class ≡ self.old.class }
    {
        self.work.absorb(answer, &mut self.reply)
    }

    /// The reply: from the effect on, also before the class's turn is over.
    pub fn effect(&self) -> Option<Reply>
        ensures { result ≡ self.now.reply }
    {
        self.reply
    }
}
