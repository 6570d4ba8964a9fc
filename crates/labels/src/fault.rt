//! Why a text is no label, and why a list of entries is no table.

/// Why a text is no label.
#[derive(Clone, Copy, Debug, PartialEq, Eq)]
pub enum LabelFault {
    /// It isn't of the form `L{cats}/L{cats}`.
    Spelling,
    /// It is, and a level is above 15.
    Level,
    /// It is, no level is too high, and a category is above 31 or not above the one before it.
    Category,
}

/// Why a list of entries is no table of classes.
#[derive(Clone, Copy, Debug, PartialEq, Eq)]
pub enum TableFault {
    /// There are more than 16.
    TooMany { given: usize },
    /// The name or the label of the entry at this index stood before.
    Twice { index: usize },
    /// The label of the entry at this index doesn't dominate that of entry 0.
    NotLow { index: usize },
}
