//! A run of the events at or below a class.

ghost use Rattle.std.specs.Prelude.{◌≡◌, ◌↔◌, ◌<◌, ◌≤◌, All, IsTrue, List};
ghost use Rattle.words_layout.specs.Sizes.{most_classes};
ghost use Rattle.class_model.specs.Config.{classes};
ghost use Rattle.class_model.specs.Process.{ProcName};
ghost use Rattle.low_run.specs.Flags.{is_low, low_of, picked};
ghost use Rattle.low_run.specs.LowRuns.{GoesOn, OthersEnded};
ghost use Rattle.machine.specs.Banks.{machine_of};
ghost use Rattle.machine.specs.Low.{low_events};
ghost use Rattle.machine.specs.Machine.{run};
ghost use Rattle.machine.specs.Plain.{OnWords};
ghost use Rattle.machine.specs.Steps.{InRange, RunsBy};

use crate::classes::LowClasses;
use machine::{Machine, plain_laws};
use words_layout::{Event, PlainWords};

/// Takes the event where its class is one of these.
fn step_low(machine: &mut Machine<PlainWords>, event: Event, low: &LowClasses)
    requires event { InRange machine.old event }
    requires class { event.class < most_classes }
    ensures { GoesOn (picked (is_low low.now event.class) event) machine.old machine.new }
{
    if low.has(event.class) {
        machine.step(event);
    }
}

/// Takes the events whose class is one of these, in order.
fn run_picked(machine: &mut Machine<PlainWords>, events: &[Event], low: &LowClasses)
    requires events { All (λ e. InRange machine.old e) events.now }
    requires few { classes machine.old.shared ≤ most_classes }
    ensures { (names : List ProcName) × RunsBy OnWords (low_of low.now events.now) machine.old machine.new names }
{
    for event in events {
        step_low(machine, *event, low);
    }
}

/// Whether no process is live of a class that isn't one of these.
fn others_ended(machine: &Machine<PlainWords>, low: &LowClasses) -> bool
    requires { classes machine.now.shared ≤ most_classes }
    ensures { IsTrue result ↔ OthersEnded low.now machine.now }
{
    for class in 0..machine.shared().table().count() {
        if !low.has(class) && !machine.ended(class) {
            return false;
        }
    }
    true
}

/// Likewise. Where no process of another class is live, no event is tested, since those of other classes do nothing then.
fn run_these(machine: &mut Machine<PlainWords>, events: &[Event], low: &LowClasses)
    requires events { All (λ e. InRange machine.old e) events.now }
    requires few { classes machine.old.shared ≤ most_classes }
    ensures { (names : List ProcName) × RunsBy OnWords (low_of low.now events.now) machine.old machine.new names }
{
    if others_ended(machine, low) {
        machine.run(events);
    } else {
        run_picked(machine, events, low);
    }
}

/// Takes the events whose class is at or below this one, in order, and no other. It takes no memory.
pub fn run_low(machine: &mut Machine<PlainWords>, events: &[Event], class: u8)
    requires events { All (λ e. InRange machine.old e) events.now }
    requires class { class < classes machine.old.shared }
    ensures { machine_of machine.new ≡ run (machine_of machine.old) (low_events machine.old.shared.table class events.now) }
{
    machine.plain_law();
    machine.shared().table().table_law();
    let low = LowClasses::of(machine.shared().table(), class);
    run_these(machine, events, &low);
    plain_laws();
}
