//! The run.

ghost use Rattle.std.specs.Prelude.{◌≡◌, ◌≤◌, [], All, length};
ghost use Rattle.class_model.specs.Config.{Config};
ghost use Rattle.class_model.specs.Valid.{IsConfig};
ghost use Rattle.machine.specs.Banks.{machine_of};
ghost use Rattle.machine.specs.Machine.{run};
ghost use Rattle.machine.specs.Opening.{opening};
ghost use Rattle.machine.specs.Steps.{InRange};
ghost use Rattle.words_layout.specs.Sizes.{max_events};
ghost use Rattle.whole_runs.specs.Whole.{RunIsWhole};

use machine::{Machine, plain_laws};
use words_layout::{Event, PlainWords};

/// Takes each event, in order: it leaves what `Machine::run` leaves. There are at most 4,194,304 of them. Where the machine was the
/// opening one of a valid configuration, the run is that of the machine of whole instructions in the order of effect, each effect
/// shows what it must after those before it, and each access is allowed. It takes no memory.
pub fn run_whole(machine: &mut Machine<PlainWords>, events: &[Event])
    requires events { All (λ e. InRange machine.old e) events.now }
    requires few { length events.now ≤ max_events }
    ensures leaves { machine_of machine.new ≡ run (machine_of machine.old) events.now }
    ensures whole { (k : Config) → IsConfig k → machine_of machine.old ≡ opening k → RunIsWhole k events.now (machine_of machine.new) }
{
    machine.plain_law();
    machine.run(events);
    plain_laws();
}
