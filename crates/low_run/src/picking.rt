//! The events at or below a class.

ghost use Rattle.std.specs.Prelude.{◌≡◌, ◌<◌, ◌++◌, All, IfOk, OnOk, length};
ghost use Rattle.words_layout.specs.Sizes.{most_classes};
ghost use Rattle.low_run.specs.Flags.{is_low, picked};
ghost use Rattle.machine.specs.Low.{low_events};

use crate::classes::LowClasses;
use labels::ClassTable;
use std::alloc::{AllocError, Global};
use words_layout::Event;

/// Appends the event where its class is one of these.
fn push_low(found: &mut Vec<Event>, event: Event, low: &LowClasses) -> Result<(), AllocError>
    requires { event.class < most_classes }
    ensures { OnOk result (found.new.items ≡ found.old.items ++ picked (is_low low.now event.class) event) }
{
    if low.has(event.class) {
        found.push(event)?;
    }
    Ok(())
}

/// The events whose class is at or below this one, in order.
pub fn low_events(
    alloc: Global,
    table: &ClassTable,
    events: &[Event],
    class: u8,
) -> Result<Vec<Event>, AllocError>
    requires events { All (λ e. e.class < length table.now) events.now }
    requires class { class < length table.now }
    ensures { IfOk result (λ v. v.items ≡ low_events table.now class events.now) }
{
    table.table_law();
    let low = LowClasses::of(table, class);
    let mut found = Vec::new(alloc);
    for event in events {
        push_low(&mut found, *event, &low)?;
    }
    Ok(found)
}
