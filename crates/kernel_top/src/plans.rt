//! The commands that need neither threads nor a disk.

ghost use Rattle.std.specs.Prelude.{◌≡◌};
ghost use Rattle.command_input.specs.Answer.{PortsShow};
ghost use Rattle.kernel_top.specs.Answer.{SimMainShows};

use command_audit::audit;
use command_guard::guard;
use command_input::Status;
use command_large::large;
use command_run::{show, sim};
use command_view::view;
use command_words::{Plan, PlanError};
use host_ports::Host;
use std::alloc::Global;

/// The kind of usage where the words are accepted, and what they ask for is another call's.
pub const FOR_ANOTHER_CALL: u8 = 3;

/// The kind of a fault of the words.
pub fn fault_kind(fault: PlanError) -> u8
    ensures { fault ≡ PlanError.Fault result }
{
    let PlanError::Fault { kind } = fault;
    kind
}

/// Carries a plan out, or answers Usage to one that is another call's.
pub fn carry_out<H: Host>(alloc: Global, host: &mut H, plan: Plan) -> Status
    ensures shows { SimMainShows plan (H.ports host.old) (H.ports host.new) result }
    ensures ports { PortsShow (H.ports host.old) (H.ports host.new) result }
{
    match plan {
        Plan::Sim => sim(alloc, host),
        Plan::Show => show(alloc, host),
        Plan::View { class } => view(alloc, host, class),
        Plan::Large { number } => large(alloc, host, number),
        Plan::Audit { class } => audit(alloc, host, class),
        Plan::Guard => guard(alloc, host),
        Plan::Run | Plan::Save | Plan::Restore => Status::Usage {
            kind: FOR_ANOTHER_CALL,
        },
    }
}
