//! What stands for a known segment where there is none.

ghost use Rattle.gate_parts.specs.Replies.{IsKnown};

use policy::{Known, Rights};
use rings::Brackets;
use words_layout::SegId;

/// A segment without words, for a gate that is refused since no segment is known.
pub fn no_segment() -> Known
    ensures { IsKnown result }
{
    Known {
        seg: SegId {
            mentor: 0,
            serial: 0,
        },
        class: 0,
        brackets: Brackets {
            r1: 7,
            r2: 7,
            r3: 7,
        },
        size: 0,
        rights: Rights::OBSERVE,
    }
}
