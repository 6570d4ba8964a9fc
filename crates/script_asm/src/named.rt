//! Where a name stands.

/// The first line that has a name.
#[derive(Clone, Copy, Debug, PartialEq, Eq)]
pub struct Named {
    /// The line, counted from 0.
    pub line: u64,
    /// The number of instruction lines before it.
    pub place: u64,
}
