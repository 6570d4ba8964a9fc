//! The events of sweeps.

ghost use Rattle.std.specs.Prelude.{◌≡◌, ℕ, ◌+◌, ◌*◌, ◌<◌, ◌≤◌, ◌++◌, ◌%◌, length, map, slice_index, OnOk};
ghost use Rattle.words_layout.specs.Sizes.{max_events};
ghost use Rattle.lists.specs.Lists.{below};
ghost use Rattle.schedule.specs.Schedule.{event, swept, swept_round};

use std::alloc::AllocError;
use words_layout::Event;

/// Appends the next quantum of a processor, which has reached this place of the cycle.
fn one_quantum(
    events: &mut Vec<Event>,
    processor: u8,
    quantum: u32,
    cycle: &[u8],
    place: usize,
) -> Result<(), AllocError>
    requires cycle { 0 < length cycle.now }
    requires place { place ≤ max_events }
    ensures { OnOk result (events.new.items ≡ events.old.items
        ++ map (λ k. event processor (slice_index cycle.now ((place + k) % length cycle.now))) (below quantum)) }
{
    for k in 0..quantum {
        events.push(Event {
            processor,
            class: cycle[(place + k as usize) % cycle.len()],
        })?;
    }
    Ok(())
}

/// Appends a round: a quantum of each processor, one after the other.
fn round(
    events: &mut Vec<Event>,
    processors: u8,
    quantum: u32,
    cycle: &[u8],
    place: usize,
) -> Result<(), AllocError>
    requires cycle { 0 < length cycle.now }
    requires place { place ≤ max_events }
    ensures { OnOk result (events.new.items ≡ events.old.items ++ swept_round processors quantum cycle.now place) }
{
    for processor in 0..processors {
        one_quantum(events, processor, quantum, cycle, place)?;
    }
    Ok(())
}

/// Appends so many rounds, where each processor has reached this place of the cycle.
#[tactic(auto, using(crate::proofs::Sweeps::rounds_left))]
pub fn sweep(
    events: &mut Vec<Event>,
    processors: u8,
    quantum: u32,
    cycle: &[u8],
    place: usize,
    rounds: u32,
) -> Result<(), AllocError>
    requires cycle { 0 < length cycle.now }
    requires place { place + rounds * quantum ≤ max_events }
    ensures { (classes : ℕ) → OnOk result (events.new.items ≡ events.old.items
        ++ swept (record { processors = processors; classes = classes; cycle = cycle.now; quantum = quantum }) place rounds) }
{
    let mut place = place;
    for _ in 0..rounds {
        round(events, processors, quantum, cycle, place)?;
        place += quantum as usize;
    }
    Ok(())
}
