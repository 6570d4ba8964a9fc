//! Entries of a trail.

use policy::Rights;
use whole_machine::ProcName;
use words_layout::SegId;

/// An entry of a trail. Instructions count from 0 in this order: `call`, `ret`, `spawn`, `makeknown`, `terminate`, `create`,
/// `delete`, `swapin`, `swapout`, `fetch`, `update`, `read`, `await`, `advance`, `ticket`, `out`.
#[derive(Clone, Copy, Debug, PartialEq, Eq)]
pub enum Entry {
    /// The process accessed a segment of that class: to observe it, to modify it, or both.
    Access {
        name: ProcName,
        instr: u8,
        kind: Rights,
        seg: SegId,
        class: u8,
    },
    /// The instruction replied: 0, or the number of the rule that refused it, from 1 to 31.
    Reply {
        name: ProcName,
        instr: u8,
        code: u8,
    },
}
