//! Identities of segments.

ghost use Rattle.std.specs.Prelude.{◌≡◌, ◌<◌};
ghost use Rattle.words_layout.specs.Limits.{IsIdentity};
ghost use Rattle.words_layout.specs.Segments.{seg_number};

use crate::limits::SERIAL_LIMIT;

/// The identity of a segment: the class of its mentor, and a serial below 64.
#[derive(Clone, Copy, Debug, PartialEq, Eq)]
pub struct SegId {
    pub mentor: u8,
    pub serial: u8,
}

/// The number of a segment: `64 * mentor + serial`.
pub fn seg_number(seg: SegId) -> u32
    requires { IsIdentity seg }
    ensures value { result ≡ seg_number seg }
    ensures range { result < 1024 }
{
    SERIAL_LIMIT as u32 * seg.mentor as u32 + seg.serial as u32
}
