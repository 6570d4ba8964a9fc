//! The top call of the commands that need no disk.

ghost use Rattle.std.specs.Prelude.{map};
ghost use Rattle.command_input.specs.Answer.{PortsShow};
ghost use Rattle.command_run.specs.Shows.{RunShows};
ghost use Rattle.command_threads.specs.Orders.{IsRoundOrder};
ghost use Rattle.command_words.specs.Words.{Accepts};
ghost use Rattle.kernel_top.specs.Answer.{UsageShows, KernelMainShows, NeedsDisk};
ghost use Rattle.kernel_top.specs.Complete.{KernelMainCompletes};

use crate::plans::{carry_out, fault_kind};
use command_input::Status;
use command_threads::run;
use command_words::{Plan, plan};
use host_ports::Host;
use processors::Pace;
use std::alloc::Global;
use std::thread::Threads;

/// Carries a plan out, or answers Usage to one that needs a disk.
pub fn carry_out_threaded<R: Threads + Sync, H: Host, P: Pace + Sync>(
    rt: &R,
    alloc: Global,
    host: &mut H,
    pace: &P,
    plan: Plan,
) -> Status
    ensures shows { KernelMainShows plan (H.ports host.old) (H.ports host.new) result }
    ensures ports { PortsShow (H.ports host.old) (H.ports host.new) result }
{
    match plan {
        Plan::Run => run(rt, alloc, host, pace),
        other => carry_out(alloc, host, other),
    }
}

/// The top call of the commands that need no disk. By `run` the configuration at port 0 is run by processors that are threads, for
/// the rounds that it gives, and what `sim` would push of that order is pushed. The pace is told of each step before it is taken.
/// Every other list of words is answered as by `sim_main`.
pub fn kernel_main<R: Threads + Sync, H: Host, P: Pace + Sync>(
    rt: &R,
    alloc: Global,
    words: &[&str],
    host: &mut H,
    pace: &P,
) -> Status
    // Usage exactly where the words ask for no command of this call, with the kind of their first fault.
    ensures usage { UsageShows NeedsDisk (map (λ w. w.now) words.now) (H.ports host.old) (H.ports host.new) result }
    // By `run`: the headline, and whatever else each answer says, of one input and one order of rounds.
    ensures headline { Accepts (map (λ w. w.now) words.now) Plan.Run → RunShows IsRoundOrder (H.ports host.old) (H.ports host.new) result }
    // By any accepted words: what `run` shows, and of any other what `sim_main` shows.
    ensures shows { (p : Plan) → Accepts (map (λ w. w.now) words.now) p → KernelMainShows p (H.ports host.old) (H.ports host.new) result }
    // By any accepted words: a valid input is answered by Done or Unfinished with its whole report, unless a count of the host
    // rises or memory runs out.
    ensures complete { (p : Plan) → Accepts (map (λ w. w.now) words.now) p → KernelMainCompletes p (H.ports host.old) (H.ports host.new) result }
    // By any words: where nothing is pushed, which calls failed, and which ports weren't touched.
    ensures ports { PortsShow (H.ports host.old) (H.ports host.new) result }
{
    match plan(words) {
        Ok(plan) => carry_out_threaded(rt, alloc, host, pace, plan),
        Err(fault) => Status::Usage {
            kind: fault_kind(fault),
        },
    }
}
