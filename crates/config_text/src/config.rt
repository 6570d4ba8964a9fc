//! A configuration.

use labels::ClassTable;
use lists::Items;
use rings::{Brackets, Ring};
use script_lang::Program;

/// The pools of a class, and the volume that holds its segments.
#[derive(Clone, Copy, Debug, PartialEq, Eq)]
pub struct Pool {
    /// From 0 to 16.
    pub frames: u8,
    /// From 0 to 32.
    pub pages: u8,
    /// From 1 to 4, or 0 where no volume holds the class.
    pub volume: u8,
}

/// A script: its class and its instructions.
#[derive(Drop)]
pub struct Script {
    pub class: u8,
    pub program: Program,
}

/// A gate: its class, its script by place, and its brackets.
#[derive(Clone, Copy, Debug, PartialEq, Eq)]
pub struct GateLine {
    pub class: u8,
    pub script: u8,
    pub brackets: Brackets,
}

/// A process that there is from the beginning, with its script by place and the ring that it begins in.
#[derive(Clone, Copy, Debug, PartialEq, Eq)]
pub struct ProcessLine {
    pub processor: u8,
    pub class: u8,
    pub script: u8,
    pub ring: Ring,
}

/// An item of the schedule.
#[derive(Clone, Copy, Debug, PartialEq, Eq)]
pub enum Item {
    /// So many events of one virtual processor.
    Events {
        processor: u8,
        class: u8,
        count: u32,
    },
    /// So many events, drawn from a number.
    Mix {
        start: u64,
        count: u32,
    },
    /// So many rounds.
    Sweep {
        rounds: u32,
    },
}

/// A whole configuration. Scripts and gates are numbered from 0 in their order.
#[derive(Drop)]
pub struct Config {
    pub table: ClassTable,
    /// One for each class.
    pub pools: Items<Pool>,
    /// From 1 to 4.
    pub processors: u8,
    /// 1 to 16 classes.
    pub cycle: Items<u8>,
    /// From 1 to 4,096.
    pub rounds: u32,
    /// From 1 to 256.
    pub quantum: u32,
    /// Console lines of a class, from 0 to 4,096.
    pub console: u32,
    /// At most 32.
    pub scripts: Items<Script>,
    /// At most 32.
    pub gates: Items<GateLine>,
    pub processes: Items<ProcessLine>,
    /// With at most 4,194,304 events in all.
    pub schedule: Items<Item>,
}
