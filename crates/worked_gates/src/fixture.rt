//! Who calls the gates of these tests, by which segment, and how a gate is run through a list of answers.

ghost use Rattle.std.specs.Prelude.{◌≡◌, ◌≤◌, Some};
ghost use Rattle.gate_parts.specs.Replies.{KnownTo};

use arrayvec::ArrayString;
use data_gates::{Fetch, Update};
use evc_gates::{Await, EvcRead};
use labels::{ClassTable, Label};
use policy::{Caller, Known, Outcome, Reply, Rights};
use rings::{Brackets, Ring};
use std::alloc::Global;
use std::test::Fail;
use swap_gates::{SwapIn, SwapOut};
use tree_gates::{Create, Delete};
use words_layout::SegId;

/// A caller of class 0 in ring 4.
pub fn caller() -> Caller
    ensures { result.class ≡ 0 }
{
    Caller {
        class: 0,
        ring: Ring(4),
    }
}

/// A segment of class 0 and of so many words, which every ring may observe and modify.
pub fn segment(size: u8) -> Known
    requires { size ≤ 64 }
    ensures known { KnownTo 0 (Some result) }
    ensures class { result.class ≡ 0 }
{
    Known {
        seg: SegId {
            mentor: 0,
            serial: 2,
        },
        class: 0,
        brackets: Brackets {
            r1: 7,
            r2: 7,
            r3: 7,
        },
        size,
        rights: Rights::wanted(3),
    }
}

/// A class table of these names and labels, if they make one.
pub fn class_table(alloc: Global, rows: &[(&str, &str)]) -> Result<ClassTable, Fail> {
    let mut entries = Vec::new(alloc);
    for (name, label) in rows {
        let name: ArrayString<16> = ArrayString::from(name).ok().ok_or("a name")?;
        entries.push((name, Label::parse(label).ok().ok_or("a label")?))?;
    }
    if entries.is_empty() {
        return Err(Fail::from("no class"));
    }
    Ok(ClassTable::new(entries).ok().ok_or("a table")?)
}

/// The end of a gate with this reply.
pub fn done(code: u8, value: u64) -> Outcome {
    Outcome::Done(Reply { code, value })
}

/// A gate that takes one answer after the other.
pub trait Steps {
    /// Takes the answer to the operation of the step.
    fn take(&mut self, answer: u64) -> Outcome;
}

impl Steps for Create {
    fn take(&mut self, answer: u64) -> Outcome {
        self.absorb(answer)
    }
}

impl Steps for Delete {
    fn take(&mut self, answer: u64) -> Outcome {
        self.absorb(answer)
    }
}

impl Steps for SwapIn {
    fn take(&mut self, answer: u64) -> Outcome {
        self.absorb(answer)
    }
}

impl Steps for SwapOut {
    fn take(&mut self, answer: u64) -> Outcome {
        self.absorb(answer)
    }
}

impl Steps for Fetch {
    fn take(&mut self, answer: u64) -> Outcome {
        self.absorb(answer)
    }
}

impl Steps for Update {
    fn take(&mut self, answer: u64) -> Outcome {
        self.absorb(answer)
    }
}

impl Steps for EvcRead {
    fn take(&mut self, answer: u64) -> Outcome {
        self.absorb(answer)
    }
}

impl Steps for Await {
    fn take(&mut self, answer: u64) -> Outcome {
        self.absorb(answer)
    }
}

/// What the last of these answers tells the gate; None where an earlier one doesn't let it go on.
pub fn last_told<G: Steps>(gate: &mut G, answers: &[u64]) -> Option<Outcome> {
    let mut last = Outcome::Going;
    for answer in answers {
        if last != Outcome::Going {
            return None;
        }
        last = gate.take(*answer);
    }
    Some(last)
}
