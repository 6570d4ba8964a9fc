//! What a process asks of the state, and what the state shows it.

use policy::{Known, Rule};
use std::marker::Model;

/// How many components of an eventcount were looked at, and their sum.
#[derive(Clone, Copy, Debug, PartialEq, Eq)]
pub struct Tally {
    pub seen: u8,
    pub sum: u64,
}

impl Model for Tally {
    ghost use Rattle.policy.specs.Outcome.{Tally as TallyValue};

    ghost Value = { TallyValue };

    ghost view = { λ t. record { seen = t.seen; sum = t.sum } };

    ghost inverse = { λ v. record { seen = v.seen; sum = v.sum } };
}

/// What an instruction that passed its private tests asks of the state. Numbers stand as the registers hold them.
#[derive(Clone, Copy, Debug, PartialEq, Eq)]
pub enum Request {
    MakeKnown {
        known: Known,
        entry: u64,
        mode: u64,
    },
    /// The brackets are a number, `64 r1 + 8 r2 + r3`.
    Create {
        known: Known,
        entry: u64,
        class: u64,
        brackets: u64,
        size: u64,
    },
    Delete {
        known: Known,
        entry: u64,
    },
    SwapIn(Known),
    SwapOut(Known),
    /// So many words from `offset` on into the pad from `pad` on.
    Fetch {
        known: Known,
        offset: u64,
        count: u64,
        pad: u64,
    },
    /// So many words of the pad from `pad` on, into the words from `offset` on.
    Update {
        known: Known,
        offset: u64,
        count: u64,
        pad: u64,
    },
    /// The next look of a `read` or `await`: the sum that is wanted, and how far it has come.
    Read {
        known: Known,
        wanted: u64,
        tally: Tally,
    },
    Advance(Known),
    Ticket(Known),
    Out(u64),
}

/// What a process is about to do.
#[derive(Clone, Copy, Debug, PartialEq, Eq)]
pub enum Next {
    /// Its next instruction takes effect on the process alone, or is refused.
    Own,
    /// It begins a process at the start of a script, in its own ring, with r2 = `start`.
    Begin { script: u8, start: u64 },
    /// It asks the state.
    Ask(Request),
}

/// What the state shows where a request takes effect.
#[derive(Clone, Copy)]
pub enum Shown<'a> {
    Refused(Rule),
    Value(u64),
    /// A segment for the known table.
    Learns(Known),
    /// Words for the pad, from place `at` on.
    Words { at: u8, words: &'a [u64] },
    /// A console line.
    Printed { place: u64, value: u64 },
    /// One look more, and the tally so far; None where it starts again.
    Looked(Option<Tally>),
    /// The last look, and the sum of all.
    Counted(u64),
}
