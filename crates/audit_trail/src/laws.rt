//! Laws, as the contracts of calls that do nothing.

ghost use Rattle.std.specs.Prelude.{List};
ghost use Rattle.std.specs.List.{AllByRecursion};
ghost use Rattle.class_model.specs.Process.{ProcName};
ghost use Rattle.class_model.specs.State.{State};
ghost use Rattle.audit_trail.specs.Lines.{HasLine};
ghost use Rattle.audit_trail.specs.Trail.{trail};

/// Each entry of a trail has a line.
pub fn line_law()
    ensures { (a : State) (names : List ProcName) → AllByRecursion HasLine (trail a names) }
{}
