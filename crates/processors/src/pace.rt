//! Who is told of each step.

/// Is told of the steps of processors, by each processor's thread itself. A pace may hold a step up.
pub trait Pace {
    /// Called before each step of a processor, with how many steps it has taken in the run, from 0.
    fn at(&self, processor: u8, step: u64);
}

/// Does nothing.
pub struct NoPace;

impl Pace for NoPace {
    fn at(&self, _processor: u8, _step: u64) {}
}
