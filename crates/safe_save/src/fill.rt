//! How ranges that a crash may have left at will are shown.

/// What the ranges are filled with that were written since the last sync that succeeded.
#[derive(Clone, Copy, PartialEq, Eq, Debug, Drop)]
pub enum Fill {
    /// With 0.
    Zeros,
    /// With 255.
    Ones,
    /// With the bytes that were written.
    Written,
}
