//! When an instruction is refused, and by which rule.
#![tactic(auto)]

ghost use Rattle.refusal_laws.specs.Refusals.{RefusalsAreFirst};

/// An instruction is refused exactly where a test of its row holds, by the first that does; the refusal changes r0, r1 and the place
/// alone. It is so of each state, and so in each run.
pub fn refusal_laws()
    ensures first { RefusalsAreFirst }
{}
