//! Create: the class's turn, in which a segment is made in an entry of its mentor.

ghost use Rattle.std.specs.Prelude.{◌≡◌, ◌<◌, true, length};
ghost use Rattle.words_layout.specs.Sizes.{most_classes};
ghost use Rattle.gate_parts.specs.InTurns.{of_class, runs};
ghost use Rattle.tree_gates.specs.CreateBody.{create_left};

use crate::create_body::CreateBody;
use gate_parts::Work;
use labels::ClassTable;
use policy::{Caller, Known, Outcome, Rule, brackets_of, create_refusal, usable};
use words_layout::Op;

/// Create: a segment in an entry of a mentor of the caller's class.
#[derive(Drop)]
pub struct Create {
    class: u8,
    work: Work<CreateBody>,
    ghost limit: { class < most_classes },
    ghost class_is: { of_class class work ≡ true },
    ghost runs: { runs create_left work ≡ true },
}

impl Create {
    ghost use Rattle.std.specs.Prelude.{None};
    ghost use Rattle.std.specs.Option.{option_map};
    ghost use Rattle.words_layout.specs.Named.{op_at};
    ghost use Rattle.policy.specs.Known.{usable};
    ghost use Rattle.policy.specs.Private.{create_tests};
    ghost use Rattle.turns.specs.Classes.{NamesOnly};
    ghost use Rattle.turns.specs.Doing.{Told, Fresh};
    ghost use Rattle.turns.specs.Stands.{step_op, step_told};
    ghost use Rattle.gate_parts.specs.Replies.{KnownTo, answers, begins};
    ghost use Rattle.tree_gates.specs.Limits.{PlaceInTable};
    ghost use Rattle.tree_gates.specs.Creating.{create_by, act_of, doing_of};

    /// Begins it.
    #[tactic(auto, using(policy::proofs::Passed::usable_known, crate::proofs::Begun::usable_within, policy::proofs::Passed::create_entry, policy::proofs::Passed::create_class, policy::proofs::Passed::create_brackets, policy::proofs::Passed::create_size))]
    pub fn start(
        who: &Caller,
        known: Option<&Known>,
        table: &ClassTable,
        entry: u64,
        class: u64,
        brackets: u64,
        size: u64,
    ) -> Create
        requires who { who.now.class < most_classes }
        requires known { KnownTo who.now.class (option_map (λ k. k.now) known) }
        requires table { PlaceInTable table.now (option_map (λ k. k.now) known) }
        ensures act { act_of result ≡ begins (usable (option_map (λ k. k.now) known.entry)) (create_tests table.now who.now.ring entry class brackets size)
            (create_by entry class brackets size) }
        ensures fresh { doing_of result ≡ Fresh }
        ensures class { result.class ≡ who.now.class }
    {
        let Some(known) = usable(known) else {
            return Create::new(who.class, Work::Refused(Rule::UnknownSegno));
        };
        if let Some(rule) = create_refusal(table, who.ring, known, entry, class, brackets, size) {
            return Create::new(who.class, Work::Refused(rule));
        }
        table.table_law();
        let body = CreateBody::new(
            known.seg,
            entry as u8,
            class as u8,
            brackets_of(brackets),
            size as u8,
        );
        Create::new(who.class, Work::new(who.class, body))
    }

    /// The gate before its first step.
    fn new(class: u8, work: Work<CreateBody>) -> Create
        requires limit { class < most_classes }
        requires class { of_class class work ≡ true }
        requires runs { runs create_left work ≡ true }
        ensures work { result.work ≡ work }
        ensures class { result.class ≡ class }
    {
        Create { class, work }
    }

    /// The operation of the next step.
    pub fn next_op(&self) -> Op
        ensures op { result ≡ op_at self.now.class (step_op self.now.class (act_of self.now) (doing_of self.now)) }
        ensures class { NamesOnly self.now.class result }
    {
        self.work.next_op(self.class)
    }

    /// Takes the answer to the operation of the step.
    pub fn absorb(&mut self, answer: u64) -> Outcome
        ensures outcome { result ≡ answers (step_told (act_of self.old) (doing_of self.old) answer) None }
        ensures doing { doing_of self.new ≡ (step_told (act_of self.old) (doing_of self.old) answer).doing }
        ensures act { act_of self.new ≡ act_of self.old }
        ensures class { self.new.class ≡ self.old.class }
    {
        let mut kept = None;
        self.work.absorb(answer, &mut kept)
    }
}
