//! Out: the next place on the console of the caller's class.

ghost use Rattle.std.specs.Prelude.{◌<◌};
ghost use Rattle.words_layout.specs.Sizes.{most_classes};

use policy::{Caller, Outcome, Reply, Rule};
use words_layout::{Op, console_addr};

/// Take a console place.
#[derive(Drop)]
pub struct Out {
    class: u8,
    /// How many places the console has.
    size: u32,
    ghost in_limits: { class < most_classes },
}

impl Out {
    ghost use Rattle.std.specs.Prelude.{ℕ, ◌≡◌, None};
    ghost use Rattle.words_layout.specs.Named.{op_at};
    ghost use Rattle.turns.specs.Classes.{NamesOnly};
    ghost use Rattle.turns.specs.Doing.{act_op, act_told};
    ghost use Rattle.gate_parts.specs.Replies.{answers};
    ghost use Rattle.evc_gates.specs.Counting.{out_act};

    /// Takes the next place of a console of this size.
    pub fn start(who: &Caller, size: u32) -> Out
        requires { who.now.class < most_classes }
        ensures class { result.class ≡ who.now.class }
        ensures size { result.size ≡ size }
    {
        Out {
            class: who.class,
            size,
        }
    }

    /// The operation of the next step.
    pub fn next_op(&self) -> Op
        ensures op { (value : ℕ) → result ≡ op_at self.now.class (act_op (out_act self.now.size value)) }
        ensures class { NamesOnly self.now.class result }
    {
        Op::Add(console_addr(self.class), 1)
    }

    /// Takes the answer to the operation of the step.
    pub fn absorb(&mut self, answer: u64) -> Outcome
        ensures outcome { (value : ℕ) → result ≡ answers (act_told (out_act self.old.size value) answer) None }
        ensures same { self.new ≡ self.old }
    {
        if answer < self.size as u64 {
            Outcome::Done(Reply::ok(answer))
        } else {
            Outcome::Done(Reply::refused(Rule::ConsoleFull))
        }
    }
}
