//! Numbers of the cells that use a frame or a page, under mentors of each class.

ghost use Rattle.std.specs.Prelude.{Bool};
ghost use Rattle.words_layout.specs.declared.segment.SegId.{SegId};
ghost use Rattle.whole_machine.specs.Pools.{ChangesAt, CountsUnder};

use words_layout::{SERIAL_LIMIT, SegId};

/// The numbers after a change of one cell, which used one before or not, and does now or not.
pub(crate) fn recount(numbers: &mut [u32; 16], seg: SegId, was: bool, now: bool)
    requires { (p : SegId → Bool) × (r : SegId → Bool) × ChangesAt p r seg was now × CountsUnder p numbers.old }
    ensures { (p : SegId → Bool) (r : SegId → Bool) → ChangesAt p r seg was now → CountsUnder p numbers.old → CountsUnder r numbers.new }
{
    let mentor = seg.mentor as usize;
    if mentor >= 16 || seg.serial >= SERIAL_LIMIT {
        return;
    }
    let count = numbers[mentor] + u32::from(now);
    numbers[mentor] = count - u32::from(was);
}
