//! The steps of an unfinished instruction, gate by gate.

ghost use Rattle.std.specs.Prelude.{◌≡◌, ◌<◌, false, length, is_some};
ghost use Rattle.turns.specs.Doing.{doing_told};
ghost use Rattle.tree_gates.specs.MakingKnown as MakingKnown;
ghost use Rattle.tree_gates.specs.Creating as Creating;
ghost use Rattle.tree_gates.specs.Deleting as Deleting;
ghost use Rattle.swap_gates.specs.SwappingIn as SwappingIn;
ghost use Rattle.swap_gates.specs.SwappingOut as SwappingOut;
ghost use Rattle.data_gates.specs.Fetching as Fetching;
ghost use Rattle.data_gates.specs.Updating as Updating;
ghost use Rattle.process.specs.Shows.{IsLooking, IsFetch};
ghost use Rattle.process.specs.Standing.{Stepped, IsMakeKnown, IsCreate, IsDelete, IsSwapIn, IsSwapOut, IsUpdate, is_done, is_going, effect_reply, replied, turn_step, look_step, learnt_by, fetched_by};

use crate::doing::{Doing, Step};
use class_model::{ProcessState, Shown};
use data_gates::{Fetch, Update};
use labels::ClassTable;
use policy::{Known, Outcome, Reply};
use swap_gates::{SwapIn, SwapOut};
use tree_gates::{Create, Delete, MakeKnown};
use words_layout::Op;

/// Whether the step is the last of its instruction.
fn is_done(outcome: Outcome) -> bool
    ensures { result ≡ is_done outcome }
{
    match outcome {
        Outcome::Done(_) => true,
        _ => false,
    }
}

/// Whether the instruction goes on.
fn is_going(outcome: Outcome) -> bool
    ensures { result ≡ is_going outcome }
{
    match outcome {
        Outcome::Going => true,
        _ => false,
    }
}

/// The reply of what takes effect by a step, if anything does. It is kept from the effect on.
fn effect_reply(kept: Option<Reply>, outcome: Outcome, now: Option<Reply>) -> Option<Reply>
    ensures { result ≡ effect_reply kept outcome now }
{
    if kept.is_some() {
        return None;
    }
    match outcome {
        Outcome::Going => now,
        Outcome::Poll => None,
        Outcome::Done(reply) => Some(reply),
    }
}

/// Takes a reply, if there is one: whether there is.
fn take_reply(state: &mut ProcessState, reply: Option<Reply>) -> bool
    requires { state.old.place < 256 }
    ensures state { state.new ≡ replied state.old reply }
    ensures effect { result ≡ is_some reply }
{
    match reply {
        None => false,
        Some(reply) => {
            state.reply(reply.code, reply.value);
            true
        }
    }
}

/// The step of a turn, with the reply that was kept before it and the one that is kept after it.
fn turn_step(
    state: &mut ProcessState,
    kept: Option<Reply>,
    outcome: Outcome,
    now: Option<Reply>,
) -> Step
    requires { state.old.place < 256 }
    ensures state { state.new ≡ replied state.old (effect_reply kept outcome now) }
    ensures step { result ≡ turn_step kept outcome now }
{
    let effect = take_reply(state, effect_reply(kept, outcome, now));
    Step {
        outcome,
        effect,
        over: is_done(outcome),
    }
}

/// The step of a look.
fn look_step(outcome: Outcome) -> Step
    ensures { result ≡ look_step outcome }
{
    Step {
        outcome,
        effect: is_done(outcome),
        over: !is_going(outcome),
    }
}

/// Takes what makeknown comes to at its end: the segment that was made known, or else the reply.
fn take_learnt(state: &mut ProcessState, outcome: Outcome, learnt: Option<Known>)
    requires { state.old.place < 256 }
    ensures { state.new ≡ learnt_by state.old outcome learnt }
{
    if let Outcome::Done(reply) = outcome {
        match learnt {
            Some(known) => state.settle(&Shown::Learns(known)),
            None => state.reply(reply.code, reply.value),
        }
    }
}

/// Takes what fetch comes to at its end: the words, or else the refusal.
fn take_fetched(state: &mut ProcessState, outcome: Outcome, pad: u8, words: &[u64])
    requires { state.old.place < 256 }
    ensures { state.new ≡ fetched_by state.old outcome pad words.now }
{
    if let Outcome::Done(reply) = outcome {
        if reply.code == 0 {
            state.settle(&Shown::Words { at: pad, words });
        } else {
            state.reply(reply.code, reply.value);
        }
    }
}

/// A step of makeknown.
pub fn step_make_known(
    gate: &mut MakeKnown,
    state: &mut ProcessState,
    table: &ClassTable,
    answer: u64,
) -> Step
    requires place { state.old.place < 256 }
    requires class { gate.old.class < length table.now }
    requires gate { IsMakeKnown gate.old.class gate.old }
    ensures told { Stepped (doing_told (MakingKnown.doing_of table.now gate.old) answer) state.old state.new result }
    ensures doing { MakingKnown.doing_of table.now gate.new ≡ (doing_told (MakingKnown.doing_of table.now gate.old) answer).doing }
    ensures gate { result.over ≡ false → IsMakeKnown gate.old.class gate.new }
{
    let outcome = gate.absorb(table, answer);
    take_learnt(state, outcome, gate.learnt());
    look_step(outcome)
}

/// A step of create.
pub fn step_create(gate: &mut Create, state: &mut ProcessState, answer: u64) -> Step
    requires place { state.old.place < 256 }
    requires gate { IsCreate gate.old.class gate.old }
    ensures told { Stepped (doing_told (Creating.doing_of gate.old) answer) state.old state.new result }
    ensures doing { Creating.doing_of gate.new ≡ (doing_told (Creating.doing_of gate.old) answer).doing }
    ensures gate { result.over ≡ false → IsCreate gate.old.class gate.new }
{
    let outcome = gate.absorb(answer);
    turn_step(state, None, outcome, None)
}

/// A step of delete.
pub fn step_delete(gate: &mut Delete, state: &mut ProcessState, answer: u64) -> Step
    requires place { state.old.place < 256 }
    requires gate { IsDelete gate.old.class gate.old }
    ensures told { Stepped (doing_told (Deleting.doing_of gate.old) answer) state.old state.new result }
    ensures doing { Deleting.doing_of gate.new ≡ (doing_told (Deleting.doing_of gate.old) answer).doing }
    ensures gate { result.over ≡ false → IsDelete gate.old.class gate.new }
{
    let kept = gate.effect();
    let outcome = gate.absorb(answer);
    turn_step(state, kept, outcome, gate.effect())
}

/// A step of swapin.
pub fn step_swap_in(gate: &mut SwapIn, state: &mut ProcessState, answer: u64) -> Step
    requires place { state.old.place < 256 }
    requires gate { IsSwapIn gate.old.class gate.old }
    ensures told { Stepped (doing_told (SwappingIn.doing_of gate.old) answer) state.old state.new result }
    ensures doing { SwappingIn.doing_of gate.new ≡ (doing_told (SwappingIn.doing_of gate.old) answer).doing }
    ensures gate { result.over ≡ false → IsSwapIn gate.old.class gate.new }
{
    let kept = gate.effect();
    let outcome = gate.absorb(answer);
    turn_step(state, kept, outcome, gate.effect())
}

/// A step of swapout.
pub fn step_swap_out(gate: &mut SwapOut, state: &mut ProcessState, answer: u64) -> Step
    requires place { state.old.place < 256 }
    requires gate { IsSwapOut gate.old.class gate.old }
    ensures told { Stepped (doing_told (SwappingOut.doing_of gate.old) answer) state.old state.new result }
    ensures doing { SwappingOut.doing_of gate.new ≡ (doing_told (SwappingOut.doing_of gate.old) answer).doing }
    ensures gate { result.over ≡ false → IsSwapOut gate.old.class gate.new }
{
    let kept = gate.effect();
    let outcome = gate.absorb(answer);
    turn_step(state, kept, outcome, gate.effect())
}

/// A step of fetch, whose words go into the pad from place `pad` on.
#[inline(always)]
pub fn step_fetch(gate: &mut Fetch, pad: u8, state: &mut ProcessState, answer: u64) -> Step
    requires place { state.old.place < 256 }
    requires gate { IsLooking (IsFetch pad) (Fetching.doing_of gate.old) }
    ensures told { Stepped (doing_told (Fetching.doing_of gate.old) answer) state.old state.new result }
    ensures doing { Fetching.doing_of gate.new ≡ (doing_told (Fetching.doing_of gate.old) answer).doing }
    ensures gate { result.over ≡ false → IsLooking (IsFetch pad) (Fetching.doing_of gate.new) }
{
    let outcome = gate.absorb(answer);
    take_fetched(state, outcome, pad, gate.words().as_slice());
    look_step(outcome)
}

/// A step of update.
#[inline(always)]
pub fn step_update(gate: &mut Update, state: &mut ProcessState, answer: u64) -> Step
    requires place { state.old.place < 256 }
    requires gate { IsUpdate gate.old.class gate.old }
    ensures told { Stepped (doing_told (Updating.doing_of gate.old) answer) state.old state.new result }
    ensures doing { Updating.doing_of gate.new ≡ (doing_told (Updating.doing_of gate.old) answer).doing }
    ensures gate { result.over ≡ false → IsUpdate gate.old.class gate.new }
{
    let outcome = gate.absorb(answer);
    turn_step(state, None, outcome, None)
}

impl Doing {
    ghost use Rattle.words_layout.specs.Named.{op_at};
    ghost use Rattle.turns.specs.Doing.{doing_op};
    ghost use Rattle.process.specs.Standing.{doing_in, IsHeld};

    /// The next operation of an unfinished instruction of a process of a class.
    #[inline(always)]
    pub fn next_op(&self, table: &ClassTable, class: u8) -> Op
        requires { IsHeld class self.now }
        ensures { result ≡ op_at class (doing_op class (doing_in table.now self.now)) }
    {
        match self {
            Doing::Fresh => Op::Nothing,
            Doing::MakeKnown(gate) => gate.next_op(),
            Doing::Create(gate) => gate.next_op(),
            Doing::Delete(gate) => gate.next_op(),
            Doing::SwapIn(gate) => gate.next_op(),
            Doing::SwapOut(gate) => gate.next_op(),
            Doing::Fetch { gate, .. } => gate.next_op(),
            Doing::Update(gate) => gate.next_op(),
        }
    }

    /// A step of an unfinished instruction of a process of a class: it takes the answer, and the process takes what
    /// takes effect.
    #[inline(always)]
    pub fn step(
        &mut self,
        class: u8,
        state: &mut ProcessState,
        table: &ClassTable,
        answer: u64,
    ) -> Step
        requires place { state.old.place < 256 }
        requires class { class < length table.now }
        requires held { IsHeld class self.old }
        ensures told { Stepped (doing_told (doing_in table.now self.old) answer) state.old state.new result }
        ensures doing { doing_in table.now self.new ≡ (doing_told (doing_in table.now self.old) answer).doing }
        ensures held { result.over ≡ false → IsHeld class self.new }
    {
        match self {
            Doing::Fresh => Step {
                outcome: Outcome::Poll,
                effect: false,
                over: true,
            },
            Doing::MakeKnown(gate) => step_make_known(gate, state, table, answer),
            Doing::Create(gate) => step_create(gate, state, answer),
            Doing::Delete(gate) => step_delete(gate, state, answer),
            Doing::SwapIn(gate) => step_swap_in(gate, state, answer),
            Doing::SwapOut(gate) => step_swap_out(gate, state, answer),
            Doing::Fetch { gate, pad } => step_fetch(gate, *pad, state, answer),
            Doing::Update(gate) => step_update(gate, state, answer),
        }
    }
}
