//! How many steps fetch and update take.

ghost use Rattle.data_gates.specs.StepCounts.{FetchSteps, UpdateSteps};

/// By themselves a fetch and an update of n words take n + 4 and n + 6 steps.
pub fn steps_law()
    ensures fetch { FetchSteps }
    ensures update { UpdateSteps }
{}
