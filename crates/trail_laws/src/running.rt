//! A run, with its order of effect.

ghost use Rattle.std.specs.Prelude.{◌≡◌, All, IfOk, OnErr};
ghost use Rattle.machine.specs.Banks.{machine_of};
ghost use Rattle.machine.specs.Machine.{run, order_of_effect};
ghost use Rattle.machine.specs.Plain.{OnWords};
ghost use Rattle.machine.specs.Steps.{InRange, RunsBy};

use crate::naming::write_down;
use machine::{Machine, plain_laws};
use std::alloc::{AllocError, Global};
use whole_machine::ProcName;
use words_layout::{Event, PlainWords};

/// Each event in order, as `Machine::run`, and the names of the processes whose instructions take effect, or whose looks of a
/// `read` or `await` are taken, in this order: at most one name for each event. All memory is taken before the first event;
/// NoMemory leaves the machine unchanged.
pub fn trail(
    alloc: Global,
    machine: &mut Machine<PlainWords>,
    events: &[Event],
) -> Result<Vec<ProcName>, AllocError>
    requires { All (λ e. InRange machine.old e) events.now }
    ensures runs { IfOk result (λ names. RunsBy OnWords events.now machine.old machine.new names.items) }
    ensures after { IfOk result (λ names. machine_of machine.new ≡ run (machine_of machine.old) events.now) }
    ensures order { IfOk result (λ names. names.items ≡ order_of_effect (machine_of machine.old) events.now) }
    ensures unchanged { OnErr result (machine.new ≡ machine.old) }
{
    machine.plain_law();
    let mut names = Vec::with_capacity(alloc, events.len())?;
    for event in events {
        let effect = machine.step_effect(*event);
        write_down(&mut names, *event, effect);
    }
    plain_laws();
    Ok(names)
}
