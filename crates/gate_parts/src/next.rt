//! What is next of the body of a gate.

use words_layout::SegId;

/// What is next of a body.
#[derive(Clone, Copy, Debug, PartialEq, Eq)]
pub enum Next {
    /// An operation in the class's turn.
    InClass,
    /// An operation in the turn of this segment.
    InSegment(SegId),
    /// Nothing: the class's turn is to be left.
    Ended,
    /// Nothing: the turn of this segment is to be left.
    EndedIn(SegId),
}
