//! A run of mail.

ghost use Rattle.std.specs.Prelude.{◌≡◌, IfOk, OnErr};
ghost use Rattle.class_model.specs.Run.{steps};
ghost use Rattle.whole_machine.specs.Parts.{state_of};
ghost use Rattle.mailbox.specs.Ran.{Arrives, StopsAt};

use std::alloc::{AllocError, Global};
use whole_machine::{ModelState, ProcName, model_step};

/// One step of each named process, in order. An absent or ended process makes none. NoMemory leaves the state after a prefix of
/// the names.
pub fn run_mail(alloc: Global, state: &mut ModelState, names: &[ProcName]) -> Result<(), AllocError>
    ensures steps { IfOk result (λ _. state_of state.new ≡ steps (state_of state.old) names.now) }
    // Each collector holds a prefix of what was posted.
    ensures mail { IfOk result (λ _. Arrives (state_of state.old) names.now (state_of state.new)) }
    ensures err { OnErr result (StopsAt (state_of state.old) names.now (state_of state.new)) }
    ensures shared { state.new.shared ≡ state.old.shared }
{
    for name in names {
        model_step(alloc, state, name)?;
    }
    Ok(())
}
