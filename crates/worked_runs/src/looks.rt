//! Two looks of one run, to which the laws of looks are applied.

ghost use Rattle.worked_runs.specs.TwoLooks.{IsCrossed, IsAccepted};

/// A reader's look that an update crosses starts again, and the look behind it is accepted after six steps.
pub fn a_reader_looks_twice()
    ensures crossed { IsCrossed }
    ensures accepted { IsAccepted }
{}
