//! States of the machine of whole instructions.

ghost use Rattle.std.specs.Prelude.{◌≡◌, true, IfOk, OnErr, is_some};
ghost use Rattle.class_model.specs.Step.{step, deed};
ghost use Rattle.whole_machine.specs.Parts.{state_of};
ghost use Rattle.whole_machine.specs.Steps.{step_takes};

use crate::name::ProcName;
use crate::part::PartState;
use crate::step::{due, perform};
use class_model::Shared;
use std::alloc::{AllocError, Global};
use std::marker::Model;

/// A state: what no step changes, and a part for each class. Contracts see the lists.
#[derive(Drop)]
pub struct ModelState {
    /// Where scripts and gates that are put get their memory.
    pub(crate) alloc: Global,
    pub(crate) shared: Shared,
    pub(crate) parts: Vec<PartState>,
}

impl Model for ModelState {
    ghost use Rattle.whole_machine.specs.Parts.{ListedState};
    ghost use Rattle.whole_machine.specs.Fits.{PartsFit};

    ghost Value = { ListedState };

    ghost view = { λ m. record { shared = m.shared; parts = m.parts.items } };

    ghost invariant = { λ m. PartsFit m.shared m.parts.items };
}

/// One step of the named process. False comes exactly where it is absent or ended, and changes nothing. NoMemory comes only
/// where its next instruction asks for a change of the state beyond the process, or for words; also where a number would
/// pass the greatest u64. It changes nothing.
pub fn model_step(
    alloc: Global,
    state: &mut ModelState,
    name: &ProcName,
) -> Result<bool, AllocError>
    ensures step { IfOk result (λ _. state_of state.new ≡ step (state_of state.old) name.now) }
    ensures made { IfOk result (λ made. made ≡ is_some (deed (state_of state.old) name.now)) }
    ensures err { OnErr result (state_of state.new ≡ state_of state.old) }
    ensures takes { OnErr result (step_takes (deed (state_of state.old) name.now) ≡ true) }
    ensures shared { state.new.shared ≡ state.old.shared }
{
    match due(&state.shared, state.parts.as_slice(), name) {
        None => Ok(false),
        Some(next) => {
            perform(alloc, &state.shared, &mut state.parts, name, &next)?;
            Ok(true)
        }
    }
}
