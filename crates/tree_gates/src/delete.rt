//! Delete: the class's turn and, within it, the turn of a child of the caller's class, in which the child is deleted.

ghost use Rattle.std.specs.Prelude.{◌≡◌, ◌<◌, true};
ghost use Rattle.words_layout.specs.Sizes.{most_classes};
ghost use Rattle.gate_parts.specs.InTurns.{of_class, runs};
ghost use Rattle.tree_gates.specs.DeleteBody.{delete_left};

use crate::delete_body::DeleteBody;
use gate_parts::Work;
use policy::{Caller, Known, Outcome, Reply, Rule, delete_refusal, usable};
use words_layout::Op;

/// Delete: the segment in an entry of a mentor of the caller's class.
#[derive(Drop)]
pub struct Delete {
    class: u8,
    work: Work<DeleteBody>,
    /// The reply, from the effect on.
    reply: Option<Reply>,
    ghost limit: { class < most_classes },
    ghost class_is: { of_class class work ≡ true },
    ghost runs: { runs delete_left work ≡ true },
}

impl Delete {
    ghost use Rattle.std.specs.Prelude.{None};
    ghost use Rattle.std.specs.Option.{option_map};
    ghost use Rattle.words_layout.specs.Named.{op_at};
    ghost use Rattle.policy.specs.Known.{usable};
    ghost use Rattle.policy.specs.Private.{delete_tests};
    ghost use Rattle.turns.specs.Classes.{NamesOnly};
    ghost use Rattle.turns.specs.Doing.{Told, Fresh};
    ghost use Rattle.turns.specs.Stands.{step_op, step_told};
    ghost use Rattle.gate_parts.specs.Replies.{KnownTo, answers, begins, reply_kept};
    ghost use Rattle.tree_gates.specs.Deleting.{delete_by, act_of, doing_of};

    /// Begins it.
    #[tactic(auto, using(policy::proofs::Passed::usable_known, crate::proofs::Begun::usable_within, policy::proofs::Passed::delete_entry))]
    pub fn start(who: &Caller, known: Option<&Known>, entry: u64) -> Delete
        requires who { who.now.class < most_classes }
        requires known { KnownTo who.now.class (option_map (λ k. k.now) known) }
        ensures act { act_of result ≡ begins (usable (option_map (λ k. k.now) known.entry)) (delete_tests who.now.ring entry) (delete_by who.now.class entry) }
        ensures fresh { doing_of result ≡ Fresh }
        ensures class { result.class ≡ who.now.class }
        ensures reply { result.reply ≡ None }
    {
        let Some(known) = usable(known) else {
            return Delete::new(who.class, Work::Refused(Rule::UnknownSegno));
        };
        match delete_refusal(who.ring, known, entry) {
            Some(rule) => Delete::new(who.class, Work::Refused(rule)),
            None => {
                let body = DeleteBody::new(who.class, known.seg, entry as u8);
                Delete::new(who.class, Work::new(who.class, body))
            }
        }
    }

    /// The gate before its first step.
    fn new(class: u8, work: Work<DeleteBody>) -> Delete
        requires limit { class < most_classes }
        requires class { of_class class work ≡ true }
        requires runs { runs delete_left work ≡ true }
        ensures work { result.work ≡ work }
        ensures class { result.class ≡ class }
        ensures reply { result.reply ≡ None }
    {
        Delete {
            class,
            work,
            reply: None,
        }
    }

    /// The operation of the next step.
    pub fn next_op(&self) -> Op
        ensures op { result ≡ op_at self.now.class (step_op self.now.class (act_of self.now) (doing_of self.now)) }
        ensures class { NamesOnly self.now.class result }
    {
        self.work.next_op(self.class)
    }

    /// Takes the answer to the operation of the step.
    pub fn absorb(&mut self, answer: u64) -> Outcome
        ensures outcome { result ≡ answers (step_told (act_of self.old) (doing_of self.old) answer) self.old.reply }
        ensures doing { doing_of self.new ≡ (step_told (act_of self.old) (doing_of self.old) answer).doing }
        ensures reply { self.new.reply ≡ reply_kept (step_told (act_of self.old) (doing_of self.old) answer) self.old.reply }
        ensures act { act_of self.new ≡ act_of self.old }
        ensures class { self.new.class ≡ self.old.class }
    {
        self.work.absorb(answer, &mut self.reply)
    }

    /// The reply: from the effect on, also before the class's turn is over.
    pub fn effect(&self) -> Option<Reply>
        ensures { result ≡ self.now.reply }
    {
        self.reply
    }
}
