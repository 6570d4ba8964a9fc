//! The top call of the commands that need neither threads nor a disk.

ghost use Rattle.std.specs.Prelude.{ℕ, map};
ghost use Rattle.command_audit.specs.Audited.{AuditShows};
ghost use Rattle.command_guard.specs.Shown.{GuardShows};
ghost use Rattle.command_input.specs.Answer.{PortsShow};
ghost use Rattle.command_large.specs.Summed.{LargeShows};
ghost use Rattle.command_run.specs.Shows.{RunShows, ShowShows, IsSchedule};
ghost use Rattle.command_view.specs.Viewed.{ViewShows};
ghost use Rattle.command_words.specs.Words.{Accepts};
ghost use Rattle.kernel_top.specs.Answer.{UsageShows, NeedsEither};
ghost use Rattle.kernel_top.specs.Complete.{SimMainCompletes};

use crate::plans::{carry_out, fault_kind};
use command_input::Status;
use command_words::{Plan, plan};
use host_ports::Host;
use std::alloc::Global;

/// The top call of the commands that need neither threads nor a disk, by the words behind the program's name.
///
/// - `sim`: the configuration at port 0 is run by its schedule, with the volumes at the ports that it names. Its report is pushed
///   to port 0, each line as one piece; where no process is live then, the volumes after the run are pushed, each to its port, in
///   format 2.
/// - `show`: the configuration's text is pushed to port 0.
/// - `view N`: what is at or below class N is run alone, and its section is pushed to port 0.
/// - `large N`: the large configuration of number N is run, and its summary is pushed to port 0. Nothing is pulled.
/// - `audit N`: as `view N`, but each access and reply is pushed, in the order of effect, in place of the section.
/// - `guard`: the release order at port 0 is carried out on the volume at port 1, and the new volume is pushed to port 1, in format 2.
///
/// NoMemory comes before the first byte is pushed. Every other list of words is answered by Usage: with the kind that
/// `command_words::plan` gives, or with kind 3 where `plan` accepts the list.
pub fn sim_main<H: Host>(alloc: Global, words: &[&str], host: &mut H) -> Status
    // Usage exactly where the words ask for no command of this call, with the kind of their first fault.
    ensures usage { UsageShows NeedsEither (map (λ w. w.now) words.now) (H.ports host.old) (H.ports host.new) result }
    // By `sim`: the headline, and whatever else each answer says, of one input and the order of its schedule.
    ensures headline { Accepts (map (λ w. w.now) words.now) Plan.Sim → RunShows IsSchedule (H.ports host.old) (H.ports host.new) result }
    // By `show`: the text of the configuration, or why there is none.
    ensures show { Accepts (map (λ w. w.now) words.now) Plan.Show → ShowShows (H.ports host.old) (H.ports host.new) result }
    // By `view N`: the section of class N that `sim` prints.
    ensures view { (class : ℕ) → Accepts (map (λ w. w.now) words.now) (Plan.View class) → ViewShows class (H.ports host.old) (H.ports host.new) result }
    // By `large N`: the summary, read off the machine of whole instructions.
    ensures large { (number : ℕ) → Accepts (map (λ w. w.now) words.now) (Plan.Large number) → LargeShows number (H.ports host.old) (H.ports host.new) result }
    // By `audit N`: each access and reply at or below class N, each access allowed.
    ensures audit { (class : ℕ) → Accepts (map (λ w. w.now) words.now) (Plan.Audit class) → AuditShows class (H.ports host.old) (H.ports host.new) result }
    // By `guard`: the volume after the releases and the export, which nothing else flows into.
    ensures guard { Accepts (map (λ w. w.now) words.now) Plan.Guard → GuardShows (H.ports host.old) (H.ports host.new) result }
    // By any accepted words: a valid input is answered by Done or Unfinished with its whole report, unless a count of the host
    // rises or memory runs out.
    ensures complete { (p : Plan) → Accepts (map (λ w. w.now) words.now) p → SimMainCompletes p (H.ports host.old) (H.ports host.new) result }
    // By any words: where nothing is pushed, which calls failed, and which ports weren't touched.
    ensures ports { PortsShow (H.ports host.old) (H.ports host.new) result }
{
    match plan(words) {
        Ok(plan) => carry_out(alloc, host, plan),
        Err(fault) => Status::Usage {
            kind: fault_kind(fault),
        },
    }
}
