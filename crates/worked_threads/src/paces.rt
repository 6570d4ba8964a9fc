//! Paces that hold processors up until others have come to a step. Each looks so often at most, so that processors which run one after
//! the other come to an end and the test fails.

use processors::Pace;
use std::sync::atomic::Ordering::SeqCst;
use std::sync::atomic::{AtomicBool, AtomicU64};

/// How often a pace looks for a flag.
const LOOKS: u64 = 100_000_000;

/// A flag that is set once, and looked for.
#[derive(Drop)]
pub struct Flag {
    set: AtomicBool,
    missed: AtomicBool,
}

impl Flag {
    pub fn new() -> Flag {
        Flag {
            set: AtomicBool::new(false),
            missed: AtomicBool::new(false),
        }
    }

    /// Sets it.
    pub fn set(&self) {
        self.set.store(true, SeqCst);
    }

    /// Looks until it is set, or until it was looked for too often.
    pub fn wait(&self) {
        for _ in 0..LOOKS {
            if self.set.load(SeqCst) {
                return;
            }
        }
        self.missed.store(true, SeqCst);
    }

    /// Whether it was set, and seen in time by all that looked for it.
    pub fn was_seen(&self) -> bool {
        self.set.load(SeqCst) && !self.missed.load(SeqCst)
    }
}

/// Counts the steps of four processors.
#[derive(Drop)]
pub struct Counts {
    steps: [AtomicU64; 4],
}

impl Counts {
    pub fn new() -> Counts {
        Counts {
            steps: [
                AtomicU64::new(0),
                AtomicU64::new(0),
                AtomicU64::new(0),
                AtomicU64::new(0),
            ],
        }
    }

    /// How many steps a processor took.
    pub fn of(&self, processor: u8) -> u64 {
        match self.steps.get(usize::from(processor)) {
            Some(steps) => steps.load(SeqCst),
            None => 0,
        }
    }
}

impl Pace for Counts {
    fn at(&self, processor: u8, _step: u64) {
        if let Some(steps) = self.steps.get(usize::from(processor)) {
            steps.fetch_add(1, SeqCst);
        }
    }
}

/// Holds processors 0 and 1 in their first step until both have come to it.
#[derive(Drop)]
pub struct Meeting {
    pub first: Flag,
    pub second: Flag,
    pub counts: Counts,
}

impl Meeting {
    pub fn new() -> Meeting {
        Meeting {
            first: Flag::new(),
            second: Flag::new(),
            counts: Counts::new(),
        }
    }
}

impl Pace for Meeting {
    fn at(&self, processor: u8, step: u64) {
        self.counts.at(processor, step);
        if step == 0 && processor == 0 {
            self.first.set();
            self.second.wait();
        }
        if step == 0 && processor == 1 {
            self.second.set();
            self.first.wait();
        }
    }
}

/// Holds one of two processors in its first step until the other one has taken three.
#[derive(Drop)]
pub struct Behind {
    pub held: u8,
    pub ahead: Flag,
}

impl Behind {
    pub fn new(held: u8) -> Behind {
        Behind {
            held,
            ahead: Flag::new(),
        }
    }
}

impl Pace for Behind {
    fn at(&self, processor: u8, step: u64) {
        if processor == self.held {
            if step == 0 {
                self.ahead.wait();
            }
        } else if step == 3 {
            self.ahead.set();
        }
    }
}
