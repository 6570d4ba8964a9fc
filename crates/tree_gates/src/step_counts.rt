//! How many steps makeknown, create and delete take.

ghost use Rattle.tree_gates.specs.StepCounts.{MakeKnownSteps, CreateSteps, DeleteUpgradedSteps, DeleteOwnSteps};

/// By themselves a makeknown takes 4 steps, a create 9, a delete of a child of another class 6, and one of a child of the
/// own class 20, and one for each tenant.
pub fn steps_law()
    ensures make_known { MakeKnownSteps }
    ensures create { CreateSteps }
    ensures upgraded { DeleteUpgradedSteps }
    ensures own { DeleteOwnSteps }
{}
