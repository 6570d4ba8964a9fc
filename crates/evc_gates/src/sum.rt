//! Read and await: the components of an eventcount, looked at one after the other in class order, and their sum.

ghost use Rattle.std.specs.Prelude.{◌≡◌, ◌<◌, ◌≤◌, ◌^◌, None, ℕ, length, slice_index_or};
ghost use Rattle.words_layout.specs.Limits.{IsIdentity};
ghost use Rattle.words_layout.specs.Sizes.{most_classes};

use crate::classes::classes_of_bits;
use arrayvec::ArrayVec;
use gate_parts::no_segment;
use policy::{Caller, Known, Outcome, Reply, Rule, read_refusal, usable};
use words_layout::{Op, component_addr};

/// The looks at the components of an eventcount, up to a sum that is enough.
#[derive(Drop)]
pub struct Sum {
    known: Known,
    /// The classes that have a component, in order.
    classes: ArrayVec<u8, 16>,
    /// The sum that is wanted.
    wanted: u64,
    /// The first broken private test.
    refusal: Option<Rule>,
    /// How many components were looked at, and their sum.
    seen: u8,
    sum: u64,
    ghost in_limits: { (known.class < most_classes) × IsIdentity known.seg },
    ghost classes_below: { (k : ℕ) → k < length classes.items → slice_index_or classes.items k 0 < most_classes },
}

impl Sum {
    ghost use Rattle.std.specs.Prelude.{ℕ, slice_index};
    ghost use Rattle.words_layout.specs.Named.{op_at};
    ghost use Rattle.turns.specs.Classes.{LoadsAmong, LoadsOnly};
    ghost use Rattle.turns.specs.Doing.{act_op, act_told};
    ghost use Rattle.std.specs.Prelude.{IsSome};
    ghost use Rattle.std.specs.Option.{option_map};
    ghost use Rattle.policy.specs.Outcome.{Tally};
    ghost use Rattle.policy.specs.Private.{read_tests};
    ghost use Rattle.policy.specs.Known.{usable};
    ghost use Rattle.gate_parts.specs.Replies.{answers, begins, KnownTo};
    ghost use Rattle.evc_gates.specs.Counting.{classes_of, sum_act, tally, tally_after};
    ghost use Rattle.evc_gates.specs.Summing.{HasNext};

    /// Makes the private tests. An empty place, or one that may be signalled alone, gives UnknownSegno.
    fn start(who: &Caller, known: Option<&Known>, below: u16, wanted: u64) -> Sum
        requires known { KnownTo who.now.class (option_map (λ k. k.now) known) }
        requires below { IsSome known → 0 < length (classes_of below) }
        ensures every { (t : Tally) → sum_act result.refusal result.classes.items result.known result.wanted t ≡ begins (usable (option_map (λ k. k.now) known.entry)) (read_tests who.now.ring) (λ k. sum_act None (classes_of below) k wanted t) }
        ensures act { sum_act result.refusal result.classes.items result.known result.wanted (tally result.seen result.sum) ≡ begins (usable (option_map (λ k. k.now) known.entry)) (read_tests who.now.ring) (λ k. sum_act None (classes_of below) k wanted (tally 0 0)) }
        ensures classes { result.classes.items ≡ classes_of below }
        ensures wanted { result.wanted ≡ wanted }
        ensures tally { tally result.seen result.sum ≡ tally 0 0 }
        ensures has_next { HasNext result }
    {
        match usable(known) {
            None => Sum {
                known: no_segment(),
                classes: classes_of_bits(below),
                wanted,
                refusal: Some(Rule::UnknownSegno),
                seen: 0,
                sum: 0,
            },
            Some(known) => Sum {
                known: *known,
                classes: classes_of_bits(below),
                wanted,
                refusal: read_refusal(who.ring, known),
                seen: 0,
                sum: 0,
            },
        }
    }

    /// The operation of the next step.
    fn next_op(&self) -> Op
        ensures class { LoadsOnly (slice_index self.now.classes.items self.now.seen) result }
        ensures among { HasNext self.now → LoadsAmong self.now.classes.items result }
        ensures op { (d : ℕ) → result ≡ op_at d (act_op (sum_act self.now.refusal self.now.classes.items self.now.known self.now.wanted (tally self.now.seen self.now.sum))) }
    {
        if self.refusal.is_some() {
            return Op::Nothing;
        }
        Op::Load(component_addr(self.class(), self.known.class, self.known.seg))
    }

    /// The class of the next component; class 0 where all were looked at.
    fn class(&self) -> u8
        ensures class { result ≡ slice_index self.now.classes.items self.now.seen }
        ensures below { result < most_classes }
    {
        let classes = self.classes.as_slice();
        if (self.seen as usize) < classes.len() {
            classes[self.seen as usize]
        } else {
            0
        }
    }

    /// Takes the answer to the operation of the step.
    fn absorb(&mut self, answer: u64) -> Outcome
        ensures outcome { result ≡ answers (act_told (sum_act self.old.refusal self.old.classes.items self.old.known self.old.wanted (tally self.old.seen self.old.sum)) answer) None }
        ensures tally { tally self.new.seen self.new.sum ≡ tally_after (tally self.old.seen self.old.sum) (act_told (sum_act self.old.refusal self.old.classes.items self.old.known self.old.wanted (tally self.old.seen self.old.sum)) answer).takes }
        ensures known { self.new.known ≡ self.old.known }
        ensures classes { self.new.classes.items ≡ self.old.classes.items }
        ensures wanted { self.new.wanted ≡ self.old.wanted }
        ensures refusal { self.new.refusal ≡ self.old.refusal }
        ensures has_next { HasNext self.old → HasNext self.new }
    {
        if let Some(rule) = self.refusal {
            return Outcome::Done(Reply::refused(rule));
        }
        let sum = self.sum.wrapping_add(answer);
        if (self.seen as usize) + 1 < self.classes.len() {
            self.seen += 1;
            self.sum = sum;
            return Outcome::Going;
        }
        self.seen = 0;
        self.sum = 0;
        if sum < self.wanted {
            Outcome::Poll
        } else {
            Outcome::Done(Reply::ok(sum))
        }
    }
}

/// Read: the sum of the components of an eventcount.
#[derive(Drop)]
pub struct EvcRead {
    looks: Sum,
}

impl EvcRead {
    ghost use Rattle.std.specs.Prelude.{IsSome};
    ghost use Rattle.std.specs.Option.{option_map};
    ghost use Rattle.words_layout.specs.Named.{op_at};
    ghost use Rattle.policy.specs.Known.{usable};
    ghost use Rattle.policy.specs.Outcome.{Tally};
    ghost use Rattle.policy.specs.Private.{read_tests};
    ghost use Rattle.turns.specs.Classes.{LoadsAmong};
    ghost use Rattle.turns.specs.Doing.{act_op, act_told};
    ghost use Rattle.gate_parts.specs.Replies.{answers, begins, KnownTo};
    ghost use Rattle.evc_gates.specs.Counting.{classes_of, sum_act, tally, tally_after};
    ghost use Rattle.evc_gates.specs.Summing.{HasNext, next_look, look_with, look_behind, SameRequest};

    /// Makes the private tests. `below` has the bits of the classes at or below the segment's.
    pub fn start(who: &Caller, known: Option<&Known>, below: u16) -> EvcRead
        requires known { KnownTo who.now.class (option_map (λ k. k.now) known) }
        requires below { IsSome known → 0 < length (classes_of below) }
        ensures classes { result.looks.classes.items ≡ classes_of below }
        ensures tally { tally result.looks.seen result.looks.sum ≡ tally 0 0 }
        ensures has_next { HasNext result.looks }
        ensures act { next_look result.looks ≡ begins (usable (option_map (λ k. k.now) known.entry)) (read_tests who.now.ring) (λ k. sum_act None (classes_of below) k 0 (tally 0 0)) }
        ensures every { (t : Tally) → look_with result.looks t ≡ begins (usable (option_map (λ k. k.now) known.entry)) (read_tests who.now.ring) (λ k. sum_act None (classes_of below) k 0 t) }
    {
        EvcRead {
            looks: Sum::start(who, known, below, 0),
        }
    }

    /// The operation of the next step.
    pub fn next_op(&self) -> Op
        ensures op { (d : ℕ) → result ≡ op_at d (act_op (next_look self.now.looks)) }
        ensures among { HasNext self.now.looks → LoadsAmong self.now.looks.classes.items result }
    {
        self.looks.next_op()
    }

    /// Takes the answer to the operation of the step.
    pub fn absorb(&mut self, answer: u64) -> Outcome
        ensures outcome { result ≡ answers (act_told (next_look self.old.looks) answer) None }
        ensures next { next_look self.new.looks ≡ look_behind self.old.looks (act_told (next_look self.old.looks) answer) }
        ensures request { SameRequest self.old.looks self.new.looks }
        ensures has_next { HasNext self.old.looks → HasNext self.new.looks }
        ensures tally { tally self.new.looks.seen self.new.looks.sum ≡ tally_after (tally self.old.looks.seen self.old.looks.sum) (act_told (next_look self.old.looks) answer).takes }
    {
        self.looks.absorb(answer)
    }
}

/// Await: the same, until the sum is at least a value.
#[derive(Drop)]
pub struct Await {
    looks: Sum,
}

impl Await {
    ghost use Rattle.std.specs.Prelude.{IsSome, slice_index};
    ghost use Rattle.std.specs.Option.{option_map};
    ghost use Rattle.words_layout.specs.Named.{op_at};
    ghost use Rattle.policy.specs.Known.{usable};
    ghost use Rattle.policy.specs.Outcome.{Tally};
    ghost use Rattle.policy.specs.Private.{read_tests};
    ghost use Rattle.turns.specs.Classes.{LoadsAmong, LoadsOnly};
    ghost use Rattle.turns.specs.Doing.{act_op, act_told};
    ghost use Rattle.gate_parts.specs.Replies.{IsKnown, answers, begins, KnownTo};
    ghost use Rattle.evc_gates.specs.Counting.{classes_of, sum_act, tally, tally_after};
    ghost use Rattle.evc_gates.specs.Summing.{HasNext, next_class, next_look, look_with, look_behind, tally_of, SameRequest};

    /// Goes on with looks that passed the private tests: `seen` components were looked at, with this sum. `below` has
    /// the bits of the classes at or below the segment's, and `value` is the sum that is wanted, 0 for a read.
    pub fn go_on(known: &Known, below: u16, value: u64, seen: u8, sum: u64) -> Await
        requires { IsKnown known.now }
        ensures act { next_look result.looks ≡ sum_act None (classes_of below) known.now value (tally seen sum) }
        ensures class { next_class result.looks ≡ slice_index (classes_of below) seen }
        ensures tally { tally_of result.looks ≡ tally seen sum }
        ensures classes { result.looks.classes.items ≡ classes_of below }
        ensures has_next { seen < length (classes_of below) → HasNext result.looks }
    {
        Await {
            looks: Sum {
                known: *known,
                classes: classes_of_bits(below),
                wanted: value,
                refusal: None,
                seen,
                sum,
            },
        }
    }

    /// How many components were looked at.
    pub fn seen(&self) -> u8
        ensures { result ≡ (tally_of self.now.looks).seen }
    {
        self.looks.seen
    }

    /// The sum of the components that were looked at.
    pub fn sum(&self) -> u64
        ensures { result ≡ (tally_of self.now.looks).sum }
    {
        self.looks.sum
    }

    /// Makes the private tests. `below` has the bits of the classes at or below the segment's.
    pub fn start(who: &Caller, known: Option<&Known>, below: u16, value: u64) -> Await
        requires known { KnownTo who.now.class (option_map (λ k. k.now) known) }
        requires below { IsSome known → 0 < length (classes_of below) }
        ensures classes { result.looks.classes.items ≡ classes_of below }
        ensures tally { tally result.looks.seen result.looks.sum ≡ tally 0 0 }
        ensures has_next { HasNext result.looks }
        ensures act { next_look result.looks ≡ begins (usable (option_map (λ k. k.now) known.entry)) (read_tests who.now.ring) (λ k. sum_act None (classes_of below) k value (tally 0 0)) }
        ensures every { (t : Tally) → look_with result.looks t ≡ begins (usable (option_map (λ k. k.now) known.entry)) (read_tests who.now.ring) (λ k. sum_act None (classes_of below) k value t) }
    {
        Await {
            looks: Sum::start(who, known, below, value),
        }
    }

    /// The operation of the next step.
    pub fn next_op(&self) -> Op
        ensures op { (d : ℕ) → result ≡ op_at d (act_op (next_look self.now.looks)) }
        ensures class { LoadsOnly (next_class self.now.looks) result }
        ensures among { HasNext self.now.looks → LoadsAmong self.now.looks.classes.items result }
    {
        self.looks.next_op()
    }

    /// Takes the answer to the operation of the step.
    pub fn absorb(&mut self, answer: u64) -> Outcome
        ensures outcome { result ≡ answers (act_told (next_look self.old.looks) answer) None }
        ensures next { next_look self.new.looks ≡ look_behind self.old.looks (act_told (next_look self.old.looks) answer) }
        ensures request { SameRequest self.old.looks self.new.looks }
        ensures has_next { HasNext self.old.looks → HasNext self.new.looks }
        ensures tally { tally self.new.looks.seen self.new.looks.sum ≡ tally_after (tally self.old.looks.seen self.old.looks.sum) (act_told (next_look self.old.looks) answer).takes }
    {
        self.looks.absorb(answer)
    }
}
