//! The top call of the commands with a disk.

ghost use Rattle.std.specs.Prelude.{◌↔◌, ◌≤◌, map};
ghost use Rattle.command_input.specs.Answer.{PortsShow};
ghost use Rattle.command_save.specs.Disks.{sight};
ghost use Rattle.command_words.specs.Words.{Accepts};
ghost use Rattle.kernel_top.specs.Answer.{StoreUsageShows, SaveMainShows, StoreMainShows, NeedsNoDisk, IsNone};
ghost use Rattle.kernel_top.specs.Complete.{SaveMainCompletes, StoreMainCompletes};
ghost use Rattle.kernel_top.specs.Store.{SaveAnswers, RestoreAnswers};

use crate::plans::{FOR_ANOTHER_CALL, fault_kind};
use crate::threads::carry_out_threaded;
use command_input::Status;
use command_save::{restore, save};
use command_words::{Plan, plan};
use host_ports::Host;
use processors::Pace;
use safe_save::Disk;
use std::alloc::Global;
use std::thread::Threads;

/// Carries a plan out on the disk, or answers Usage to one that is another call's.
fn carry_out_stored<H: Host, D: Disk>(
    alloc: Global,
    host: &mut H,
    disk: &mut D,
    plan: Plan,
) -> Status
    ensures shows { SaveMainShows (sight D.honest D.seen D.may_leave D.moment D.left_since D.faults) plan (H.ports host.old) (H.ports host.new) disk.old disk.new result }
    ensures ports { PortsShow (H.ports host.old) (H.ports host.new) result }
    ensures honest { D.honest disk.old ↔ D.honest disk.new }
    ensures later { D.faults disk.old ≤ D.faults disk.new }
{
    match plan {
        Plan::Save => save(alloc, host, disk),
        Plan::Restore => restore(alloc, host, disk),
        _ => Status::Usage {
            kind: FOR_ANOTHER_CALL,
        },
    }
}

/// The top call of the commands with a disk. It carries out the lists of words `save` and `restore`, and always returns. By `save`
/// the volume at port 1, of the table of the configuration at port 0, is kept on the disk. By `restore` the volume that the disk
/// keeps is pushed to port 1. Every other list is answered by Usage: with the kind that `command_words::plan` gives, or with kind
/// 3 where `plan` accepts the list.
pub fn save_main<H: Host, D: Disk>(
    alloc: Global,
    words: &[&str],
    host: &mut H,
    disk: &mut D,
) -> Status
    // Usage exactly where the words ask for neither, with the kind of their first fault.
    ensures usage { StoreUsageShows NeedsNoDisk (map (λ w. w.now) words.now) (H.ports host.old) (H.ports host.new) disk.old disk.new result }
    // By `save`: a crash at any moment leaves the old volume or the new one, whole.
    ensures save { Accepts (map (λ w. w.now) words.now) Plan.Save → SaveAnswers (sight D.honest D.seen D.may_leave D.moment D.left_since D.faults) (H.ports host.old) (H.ports host.new) disk.old disk.new result }
    // By `restore`: the volume that was kept before the call.
    ensures restore { Accepts (map (λ w. w.now) words.now) Plan.Restore → RestoreAnswers (sight D.honest D.seen D.may_leave D.moment D.left_since D.faults) (H.ports host.old) (H.ports host.new) disk.old disk.new result }
    // By either: a volume is kept or pushed whole, unless a count rises, the disk has no image or memory runs out.
    ensures complete { (p : Plan) → Accepts (map (λ w. w.now) words.now) p → SaveMainCompletes (sight D.honest D.seen D.may_leave D.moment D.left_since D.faults) p (H.ports host.old) (H.ports host.new) disk.old disk.new result }
    // By any words: where nothing is pushed, which calls of the host failed, and which ports weren't touched.
    ensures ports { PortsShow (H.ports host.old) (H.ports host.new) result }
    // By any words an honest disk stays honest, and the count of its failed calls doesn't fall.
    ensures honest { D.honest disk.old ↔ D.honest disk.new }
    ensures later { D.faults disk.old ≤ D.faults disk.new }
{
    match plan(words) {
        Ok(plan) => carry_out_stored(alloc, host, disk, plan),
        Err(fault) => Status::Usage {
            kind: fault_kind(fault),
        },
    }
}

/// Carries a plan out.
fn carry_out_any<R: Threads + Sync, H: Host, P: Pace + Sync, D: Disk>(
    rt: &R,
    alloc: Global,
    host: &mut H,
    pace: &P,
    disk: &mut D,
    plan: Plan,
) -> Status
    ensures shows { StoreMainShows (sight D.honest D.seen D.may_leave D.moment D.left_since D.faults) plan (H.ports host.old) (H.ports host.new) disk.old disk.new result }
    ensures ports { PortsShow (H.ports host.old) (H.ports host.new) result }
{
    match plan {
        Plan::Save => save(alloc, host, disk),
        Plan::Restore => restore(alloc, host, disk),
        other => carry_out_threaded(rt, alloc, host, pace, other),
    }
}

/// The top call of all commands. `save` and `restore` are carried out as by `save_main`, and every other list of words is answered
/// as by `kernel_main`.
pub fn store_main<R: Threads + Sync, H: Host, P: Pace + Sync, D: Disk>(
    rt: &R,
    alloc: Global,
    words: &[&str],
    host: &mut H,
    pace: &P,
    disk: &mut D,
) -> Status
    // Usage exactly where the words aren't accepted, with the kind of their first fault; then the disk too is as it was.
    ensures usage { StoreUsageShows IsNone (map (λ w. w.now) words.now) (H.ports host.old) (H.ports host.new) disk.old disk.new result }
    // By any accepted words: what `save` and `restore` show, and of any other what `kernel_main` shows, with the disk as it was.
    ensures shows { (p : Plan) → Accepts (map (λ w. w.now) words.now) p → StoreMainShows (sight D.honest D.seen D.may_leave D.moment D.left_since D.faults) p (H.ports host.old) (H.ports host.new) disk.old disk.new result }
    // By any accepted words: a valid input is answered by Done or Unfinished with all that is due, unless a count rises, the disk
    // has no image or memory runs out.
    ensures complete { (p : Plan) → Accepts (map (λ w. w.now) words.now) p → StoreMainCompletes (sight D.honest D.seen D.may_leave D.moment D.left_since D.faults) p (H.ports host.old) (H.ports host.new) disk.old disk.new result }
    // By any words: where nothing is pushed, which calls of the host failed, and which ports weren't touched.
    ensures ports { PortsShow (H.ports host.old) (H.ports host.new) result }
{
    match plan(words) {
        Ok(plan) => carry_out_any(rt, alloc, host, pace, disk, plan),
        Err(fault) => Status::Usage {
            kind: fault_kind(fault),
        },
    }
}
