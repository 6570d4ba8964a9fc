//! The body of a gate: the operations that it performs while its turns are held.

ghost use Rattle.std.specs.Prelude.{◌≡◌, ◌<◌, ◌||◌, true};
ghost use Rattle.words_layout.specs.Named.{op_at};
ghost use Rattle.words_layout.specs.Sizes.{most_classes};
ghost use Rattle.policy.specs.Outcome.{Outcome};
ghost use Rattle.turns.specs.Bodies.{Outer};
ghost use Rattle.turns.specs.Classes.{NamesOnly};
ghost use Rattle.gate_parts.specs.Replies.{reply_of};
ghost use Rattle.gate_parts.specs.Bodies.{acts, behind, body_op, is_ended, is_ended_in, next_of, shown_of, SegmentFits};

use crate::next::Next;
use policy::Reply;
use words_layout::Op;

/// The body of a gate: its operations within the turns that are held, one after the other.
pub trait Body {
    ghost whole: { Self → Outer Outcome };

    ghost left: { Self → Outer Outcome };

    /// What is next.
    fn next(&self) -> Next
        ensures next { result ≡ next_of (left self.now) }
        ensures segment { SegmentFits result };

    /// The next operation, on words of this class.
    fn op(&self, class: u8) -> Op
        requires class { class < most_classes }
        requires acts { acts (next_of (left self.now)) ≡ true }
        ensures op { result ≡ op_at class (body_op class (left self.now)) }
        ensures class { NamesOnly class result };

    /// Takes the answer to the next operation.
    fn absorb(&mut self, answer: u64)
        requires { acts (next_of (left self.old)) ≡ true }
        ensures left { left self.new ≡ behind (left self.old) answer }
        ensures whole { whole self.new ≡ whole self.old };

    /// Begins the body, at its first operation.
    fn begin(&mut self)
        ensures left { left self.new ≡ whole self.old }
        ensures whole { whole self.new ≡ whole self.old };

    /// What the body came to.
    fn reply(&self) -> Reply
        requires { (is_ended (next_of (left self.now)) || is_ended_in (next_of (left self.now))) ≡ true }
        ensures { result ≡ reply_of (shown_of (left self.now)) };
}
