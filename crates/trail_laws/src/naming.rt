//! The name of a process whose instruction takes effect.

ghost use Rattle.std.specs.Prelude.{◌≡◌, ◌+◌, ◌<◌, ◌≤◌, ◌++◌, vec_len, vec_capacity};
ghost use Rattle.machine.specs.Steps.{named};

use whole_machine::ProcName;
use words_layout::Event;

/// Appends the name of the process in that slot, where the event had an effect. There is room for it.
pub(crate) fn write_down(names: &mut Vec<ProcName>, event: Event, effect: Option<u8>)
    requires { vec_len names.old < vec_capacity names.old }
    ensures names { names.new.items ≡ names.old.items ++ named event effect }
    ensures len { vec_len names.new ≤ vec_len names.old + 1 }
    ensures room { vec_capacity names.new ≡ vec_capacity names.old }
{
    if let Some(slot) = effect {
        names.push_reserved(ProcName {
            processor: event.processor,
            class: event.class,
            slot,
        });
    }
}
