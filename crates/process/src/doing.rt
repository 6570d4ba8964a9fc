//! How far the next instruction of a process is.

use data_gates::{Fetch, Update};
use policy::Outcome;
use rings::Ring;
use swap_gates::{SwapIn, SwapOut};
use tree_gates::{Create, Delete, MakeKnown};

/// How far the next instruction is: not begun, or at a gate of which some step was taken, and not the last one.
#[derive(Drop)]
pub enum Doing {
    Fresh,
    MakeKnown(MakeKnown),
    Create(Create),
    Delete(Delete),
    SwapIn(SwapIn),
    SwapOut(SwapOut),
    /// With the place of the pad from which its words go on.
    Fetch { gate: Fetch, pad: u8 },
    Update(Update),
}

/// What a step of an unfinished instruction comes to.
#[derive(Clone, Copy, Debug, PartialEq, Eq)]
pub struct Step {
    pub outcome: Outcome,
    /// Whether the instruction takes effect by it.
    pub effect: bool,
    /// Whether the next step begins an instruction.
    pub over: bool,
}

/// What a step gives beside.
#[derive(Clone, Copy, Debug, PartialEq, Eq)]
pub enum Made {
    Nothing,
    /// A line for the console of the process's class, by its place.
    Line {
        place: u64,
        value: u64,
    },
    /// A new process of the same class for a slot: at place 0 of its script, with r2 = `start`.
    Child {
        slot: u8,
        script: u8,
        ring: Ring,
        start: u64,
    },
}

/// What the answer to an operation comes to.
#[derive(Clone, Copy, Debug, PartialEq, Eq)]
pub struct Absorbed {
    /// How the step ends. The reply of a Done is what r0, modulo 256, and r1 then hold.
    pub outcome: Outcome,
    pub made: Made,
    /// Whether an instruction takes effect by this step, or a look of a `read` or `await` is taken.
    pub effect: bool,
}
