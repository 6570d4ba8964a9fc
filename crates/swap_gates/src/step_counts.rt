//! How many steps swapin and swapout take.

ghost use Rattle.swap_gates.specs.StepCounts.{SwapInSteps, SwapOutSteps, SwapOutNewSteps};

/// By itself a swapin of n words into frame f takes n + f + 12 steps, or 2 n + f + 12 from a page; a swapout 2 n + 11 to
/// the segment's own page, or 2 n + g + 13 to the least free page g.
pub fn steps_law()
    ensures swap_in { SwapInSteps }
    ensures own_page { SwapOutSteps }
    ensures new_page { SwapOutNewSteps }
{}
