//! What a class comes to.

/// What a class comes to: its console lines, its processes that have ended and those that are live, and the tickets that were drawn
/// from its segments.
#[derive(Clone, Copy, Debug, PartialEq, Eq)]
pub struct Totals {
    pub lines: u128,
    pub ended: u64,
    pub live: u64,
    pub tickets: u128,
}
