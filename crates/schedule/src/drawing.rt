//! The events that are drawn.

ghost use Rattle.std.specs.Prelude.{◌≡◌, ◌<◌, ◌≤◌, ◌++◌, OnOk};
ghost use Rattle.schedule.specs.Schedule.{drawn, mixed};

use crate::divisor::Divisor;
use std::alloc::AllocError;
use words_layout::Event;

/// The next number of a draw.
#[tactic(auto, using(crate::proofs::Draws::wrapped))]
fn next_number(x: u64) -> u64
    ensures { result ≡ drawn x }
{
    x.wrapping_mul(6_364_136_223_846_793_005)
        .wrapping_add(1_442_695_040_888_963_407)
}

/// Appends `count` events of so many processors and classes, drawn behind the number `start`.
pub fn mix(
    events: &mut Vec<Event>,
    processors: u8,
    classes: u8,
    start: u64,
    count: u32,
) -> Result<(), AllocError>
    requires processors { (0 < processors) × (processors ≤ 16) }
    requires classes { (0 < classes) × (classes ≤ 16) }
    ensures { OnOk result (events.new.items ≡ events.old.items ++ mixed processors classes start count) }
{
    let by_processors = Divisor::new(processors);
    let by_classes = Divisor::new(classes);
    let mut x = start;
    for _ in 0..count {
        x = next_number(x);
        events.push(Event {
            processor: by_processors.remainder(x >> 33),
            class: by_classes.remainder(x >> 48),
        })?;
    }
    Ok(())
}
