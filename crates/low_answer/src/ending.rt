//! The answer after the text was pushed.

ghost use Rattle.std.specs.Prelude.{◌≡◌};
ghost use Rattle.std.specs.List.{list_any};
ghost use Rattle.lists.specs.Lists.{below};
ghost use Rattle.class_model.specs.Config.{classes};
ghost use Rattle.command_run.specs.Headline.{class_live};
ghost use Rattle.low_answer.specs.LowShows.{answer_after};
ghost use Rattle.machine.specs.Banks.{machine_of};

use command_input::{PortFault, Status};
use command_run::some_live;
use machine::Machine;
use report::WriteFault;
use words_layout::PlainWords;

/// The answer where the text was pushed to port 0 or a push of it failed: the failed push, or Unfinished where a process is live
/// in the machine, or Done.
pub fn answer_after(printed: Result<(), WriteFault>, machine: &Machine<PlainWords>) -> Status
    ensures { result ≡ answer_after printed (list_any (class_live (machine_of machine.now)) (below (classes machine.now.shared))) }
{
    match printed {
        Ok(()) => {}
        Err(_) => return Status::HostFault(PortFault::Write { port: 0 }),
    }
    if some_live(machine) {
        return Status::Unfinished;
    }
    Status::Done
}
