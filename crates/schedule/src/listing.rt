//! The events of all items.

ghost use Rattle.std.specs.Prelude.{◌≡◌, ◌+◌, ◌*◌, ◌<◌, ◌≤◌, ◌++◌, ◌∷◌, List, length, replicate, All, IfOk, OnOk};
ghost use Rattle.std.specs.List.{sum_by};
ghost use Rattle.words_layout.specs.declared.op.Event.{Event};
ghost use Rattle.config_text.specs.declared.config.Item.{Item};
ghost use Rattle.words_layout.specs.Sizes.{max_events};
ghost use Rattle.config_text.specs.Valid.{IsValid, item_ok, events_of as item_total};
ghost use Rattle.schedule.specs.Schedule.{shape_of, scheduled, events_of};
ghost use Rattle.schedule.specs.Ranges.{IsEventOf};

use crate::drawing::mix;
use crate::sweeping::sweep;
use config_text::{Config, Item};
use std::alloc::{AllocError, Global};
use words_layout::Event;

/// How many events an item stands for.
fn item_count(config: &Config, item: &Item) -> usize
    requires valid { IsValid config.now }
    requires item { item_total config.now item.now ≤ max_events }
    ensures { result ≡ item_total config.now item.now }
{
    match *item {
        Item::Events { count, .. } => count as usize,
        Item::Mix { count, .. } => count as usize,
        Item::Sweep { rounds } => {
            rounds as usize * config.quantum as usize * usize::from(config.processors)
        }
    }
}

/// How many events there are.
fn event_count(config: &Config) -> usize
    requires { IsValid config.now }
    ensures { result ≡ sum_by (item_total config.now) config.now.schedule }
{
    let mut count = 0;
    for item in config.schedule.as_slice() {
        count += item_count(config, item);
    }
    count
}

/// Appends `count` events of one processor and class.
fn repeat(events: &mut Vec<Event>, event: Event, count: u32) -> Result<(), AllocError>
    ensures { OnOk result (events.new.items ≡ events.old.items ++ replicate count event) }
{
    for _ in 0..count {
        events.push(event)?;
    }
    Ok(())
}

/// Appends the events of an item, where each processor has reached this place of the cycle. Gives the place behind it.
#[tactic(auto, using(crate::proofs::Ranges::some_processors, crate::proofs::Ranges::few_processors, crate::proofs::Ranges::some_classes, crate::proofs::Ranges::few_classes, crate::proofs::Ranges::some_cycle))]
fn append(
    events: &mut Vec<Event>,
    config: &Config,
    place: usize,
    item: &Item,
) -> Result<usize, AllocError>
    requires valid { IsValid config.now }
    requires room { place + item_total config.now item.now ≤ max_events }
    ensures items { IfOk result (λ next. (rest : List Item) → events.new.items ++ scheduled (shape_of config.now) next rest
        ≡ events.old.items ++ scheduled (shape_of config.now) place (item.now ∷ rest)) }
    ensures place { IfOk result (λ next. next ≤ place + item_total config.now item.now) }
{
    match *item {
        Item::Events {
            processor,
            class,
            count,
        } => {
            repeat(events, Event { processor, class }, count)?;
            Ok(place)
        }
        Item::Mix { start, count } => {
            mix(
                events,
                config.processors,
                config.table.count(),
                start,
                count,
            )?;
            Ok(place)
        }
        Item::Sweep { rounds } => {
            sweep(
                events,
                config.processors,
                config.quantum,
                config.cycle.as_slice(),
                place,
                rounds,
            )?;
            Ok(place + rounds as usize * config.quantum as usize)
        }
    }
}

/// The events of a valid configuration's schedule in order, at most 4,194,304. The time is linear in their number.
pub fn events(alloc: Global, config: &Config) -> Result<Vec<Event>, AllocError>
    requires { IsValid config.now }
    ensures events { IfOk result (λ v. v.items ≡ events_of config.now) }
    ensures few { IfOk result (λ v. length v.items ≤ max_events) }
    ensures range { IfOk result (λ v. All (λ e. IsEventOf config.now e) v.items) }
{
    let mut events = Vec::with_capacity(alloc, event_count(config))?;
    let mut place = 0;
    let items = config.schedule.as_slice();
    for item in items {
        place = append(&mut events, config, place, item)?;
    }
    Ok(events)
}
