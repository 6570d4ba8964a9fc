//! What a seat knows.

use std::collections::LinkedList;
use words_layout::Op;

/// An operation that was performed. No value of it is made.
pub struct Entry {
    pub round: u64,
    pub op: Op,
    pub answer: u64,
}

/// What a seat knows: the round, and the entries of each of the four numbers that it holds. No value of it is made.
pub struct View {
    pub round: u64,
    pub held: LinkedList<Option<LinkedList<Entry>>>,
}
