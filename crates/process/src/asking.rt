//! The first step of an instruction that asks the state.

ghost use Rattle.std.specs.Prelude.{◌≡◌, ◌<◌, true, false, None};
ghost use Rattle.words_layout.specs.Named.{op_at};
ghost use Rattle.turns.specs.Doing.{act_op, act_told, going};
ghost use Rattle.class_model.specs.Config.{classes};
ghost use Rattle.class_model.specs.Next.{Passed, request_of};
ghost use Rattle.process.specs.Running.{act};
ghost use Rattle.process.specs.Fits.{IsSound};
ghost use Rattle.process.specs.Standing.{doing_in, IsHeld};
ghost use Rattle.process.specs.Asking.{is_once, AskedFits, AskedOnce, once_by, line_by};
ghost use Rattle.evc_gates.specs.Summing.{next_look};

use crate::begins::{
    begin_create, begin_delete, begin_fetch, begin_make_known, begin_swap_in, begin_swap_out,
    begin_update,
};
use crate::doing::{Absorbed, Doing, Made};
use crate::looking::next_look;
use class_model::{ProcessState, Request, Shared, Shown, Tally};
use evc_gates::{Advance, Await, Out, Ticket};
use policy::{Caller, Outcome};
use words_layout::{Op, seg_started_addr, started_addr};

/// Whether a request is done by one operation.
pub fn is_once(request: &Request) -> bool
    ensures { result ≡ is_once request.now }
{
    match *request {
        Request::Read { .. } | Request::Advance(_) | Request::Ticket(_) | Request::Out(_) => true,
        _ => false,
    }
}

/// The first operation of a request.
#[inline(always)]
pub fn first_op(shared: &Shared, class: u8, state: &ProcessState, request: &Request) -> Op
    requires sound { IsSound shared.now }
    requires class { class < classes shared.now }
    requires fits { AskedFits shared.now class request.now }
    requires passed { Passed shared.now.table state.now request.now }
    ensures { result ≡ op_at class (act_op (act shared.now class state.now.ring (request_of state.now request.now))) }
{
    let who = Caller {
        class,
        ring: state.ring(),
    };
    match *request {
        Request::MakeKnown { known, .. } => Op::Load(started_addr(known.class)),
        Request::Create { .. }
        | Request::Delete { .. }
        | Request::SwapIn(_)
        | Request::SwapOut(_) => Op::Add(started_addr(class), 1),
        Request::Fetch { known, .. } => Op::Load(seg_started_addr(known.class, known.seg)),
        Request::Update { known, .. } => Op::Add(seg_started_addr(class, known.seg), 1),
        Request::Read {
            known,
            wanted,
            tally,
        } => next_look(shared.table(), &known, wanted, tally).next_op(),
        Request::Advance(known) => Advance::start(&who, Some(&known)).next_op(),
        Request::Ticket(known) => Ticket::start(&who, Some(&known)).next_op(),
        Request::Out(_) => Out::start(&who, shared.console()).next_op(),
    }
}

/// The first step of a request that looks or takes turns: how far it is then.
pub fn begin(
    doing: &mut Doing,
    shared: &Shared,
    class: u8,
    state: &ProcessState,
    request: &Request,
    answer: u64,
)
    requires sound { IsSound shared.now }
    requires class { class < classes shared.now }
    requires fits { AskedFits shared.now class request.now }
    requires passed { Passed shared.now.table state.now request.now }
    requires more { is_once request.now ≡ false }
    ensures told { act_told (act shared.now class state.now.ring (request_of state.now request.now)) answer ≡ going (doing_in shared.now.table doing.new) }
    ensures held { IsHeld class doing.new }
{
    let who = Caller {
        class,
        ring: state.ring(),
    };
    match *request {
        Request::MakeKnown { known, entry, mode } => {
            *doing = begin_make_known(&who, shared.table(), &known, entry, mode, answer);
        }
        Request::Create {
            known,
            entry,
            class: child,
            brackets,
            size,
        } => {
            let table = shared.table();
            *doing = begin_create(&who, table, &known, entry, child, brackets, size, answer);
        }
        Request::Delete { known, entry } => *doing = begin_delete(&who, &known, entry, answer),
        Request::SwapIn(known) => {
            *doing = begin_swap_in(&who, &known, shared.pool(class).frames, answer);
        }
        Request::SwapOut(known) => {
            *doing = begin_swap_out(&who, &known, shared.pool(class).pages, answer);
        }
        Request::Fetch {
            known,
            offset,
            count,
            pad,
        } => begin_fetch(doing, &who, &known, offset, count, pad, answer),
        Request::Update {
            known,
            offset,
            count,
            pad,
        } => {
            let words = state.pad();
            begin_update(doing, &who, &known, offset, count, pad, words, answer);
        }
        _ => {}
    }
}

/// Takes the reply of a request that was done by one operation.
fn take_once(state: &mut ProcessState, outcome: Outcome, made: Made) -> Absorbed
    requires { state.old.place < 256 }
    ensures state { state.new ≡ once_by state.old outcome }
    ensures absorbed { result ≡ record { outcome = outcome; made = made; effect = true } }
{
    if let Outcome::Done(reply) = outcome {
        state.reply(reply.code, reply.value);
    }
    Absorbed {
        outcome,
        made,
        effect: true,
    }
}

/// The console line of an `out`, where it isn't refused.
fn line_of(outcome: Outcome, value: u64) -> Made
    ensures { result ≡ line_by outcome value }
{
    match outcome {
        Outcome::Done(reply) if reply.code == 0 => Made::Line {
            place: reply.value,
            value,
        },
        _ => Made::Nothing,
    }
}

/// Takes a look at a component, as it was answered.
fn take_look(state: &mut ProcessState, looks: Await, answer: u64) -> Absorbed
    requires place { state.old.place < 256 }
    requires passed { looks.looks.refusal ≡ None }
    ensures { AskedOnce (act_told (next_look looks.looks) answer) state.old state.new result }
{
    let mut looks = looks;
    let outcome = looks.absorb(answer);
    match outcome {
        Outcome::Going => state.settle(&Shown::Looked(Some(Tally {
            seen: looks.seen(),
            sum: looks.sum(),
        }))),
        Outcome::Poll => state.settle(&Shown::Looked(None)),
        Outcome::Done(reply) => state.settle(&Shown::Counted(reply.value)),
    }
    Absorbed {
        outcome,
        made: Made::Nothing,
        effect: true,
    }
}

/// A request that is done by one operation takes effect, as this was answered.
pub fn ask_once(
    shared: &Shared,
    class: u8,
    state: &mut ProcessState,
    request: &Request,
    answer: u64,
) -> Absorbed
    requires sound { IsSound shared.now }
    requires class { class < classes shared.now }
    requires fits { AskedFits shared.now class request.now }
    requires passed { Passed shared.now.table state.old request.now }
    requires once { is_once request.now ≡ true }
    requires place { state.old.place < 256 }
    ensures { AskedOnce (act_told (act shared.now class state.old.ring (request_of state.old request.now)) answer) state.old state.new result }
{
    let who = Caller {
        class,
        ring: state.ring(),
    };
    match *request {
        Request::Read {
            known,
            wanted,
            tally,
        } => take_look(
            state,
            next_look(shared.table(), &known, wanted, tally),
            answer,
        ),
        Request::Advance(known) => {
            let outcome = Advance::start(&who, Some(&known)).absorb(answer);
            take_once(state, outcome, Made::Nothing)
        }
        Request::Ticket(known) => {
            let outcome = Ticket::start(&who, Some(&known)).absorb(answer);
            take_once(state, outcome, Made::Nothing)
        }
        Request::Out(value) => {
            let outcome = Out::start(&who, shared.console()).absorb(answer);
            take_once(state, outcome, line_of(outcome, value))
        }
        _ => take_once(state, Outcome::Going, Made::Nothing),
    }
}
