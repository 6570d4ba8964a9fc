//! The trail of a list of names.

ghost use Rattle.std.specs.Prelude.{◌≡◌, ◌<◌, ◌⊎◌, ◌++◌, All, IfOk, OnOk, OnErr};
ghost use Rattle.class_model.specs.Config.{classes};
ghost use Rattle.class_model.specs.Run.{steps};
ghost use Rattle.class_model.specs.Step.{step};
ghost use Rattle.whole_machine.specs.Parts.{state_of};
ghost use Rattle.audit_trail.specs.Dues.{step_entries};
ghost use Rattle.audit_trail.specs.Trail.{trail, IsAfterPrefix};

use crate::due::{due_of, push_entries};
use crate::entry::Entry;
use std::alloc::{AllocError, Global};
use whole_machine::{ModelState, ProcName, model_step};

/// One step of the named process, whose entries are appended. NoMemory leaves the state before the step or after it.
fn audit_step(
    alloc: Global,
    state: &mut ModelState,
    name: &ProcName,
    entries: &mut Vec<Entry>,
) -> Result<(), AllocError>
    requires { name.now.class < classes state.old.shared }
    ensures step { OnOk result (state_of state.new ≡ step (state_of state.old) name.now) }
    ensures entries { OnOk result (entries.new.items ≡ entries.old.items ++ step_entries (state_of state.old) name.now) }
    ensures err { OnErr result ((state_of state.new ≡ state_of state.old) ⊎ (state_of state.new ≡ step (state_of state.old) name.now)) }
    ensures shared { state.new.shared ≡ state.old.shared }
{
    let due = due_of(state, name);
    model_step(alloc, state, name)?;
    if let Some(due) = due {
        push_entries(entries, state, name, &due)?;
    }
    Ok(())
}

/// Makes a step of each of these processes, in order, and gives the trail: for each step that gives a reply its accesses and
/// then the reply, refused or not. Each name has a class of the state. NoMemory leaves the state after the steps of the first
/// few names.
pub fn audit(
    alloc: Global,
    state: &mut ModelState,
    names: &[ProcName],
) -> Result<Vec<Entry>, AllocError>
    requires { All (λ n. n.class < classes state.old.shared) names.now }
    ensures trail { IfOk result (λ entries. entries.items ≡ trail (state_of state.old) names.now) }
    ensures steps { OnOk result (state_of state.new ≡ steps (state_of state.old) names.now) }
    ensures prefix { OnErr result (IsAfterPrefix (state_of state.old) names.now (state_of state.new)) }
    ensures shared { state.new.shared ≡ state.old.shared }
{
    let mut entries = Vec::new(alloc);
    for name in names {
        audit_step(alloc, state, name, &mut entries)?;
    }
    Ok(entries)
}
