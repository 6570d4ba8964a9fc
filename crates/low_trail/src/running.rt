//! The trail of what is at or below a class.

ghost use Rattle.std.specs.Prelude.{◌≡◌, ◌<◌, true, All, IfOk, length};
ghost use Rattle.std.specs.List.{AllByRecursion};
ghost use Rattle.audit_trail.specs.Lines.{HasLine};
ghost use Rattle.class_model.specs.Access.{all_allowed};
ghost use Rattle.class_model.specs.Config.{low_config};
ghost use Rattle.config_text.specs.Valid.{IsValid};
ghost use Rattle.loader.specs.Configuration.{configuration};
ghost use Rattle.loader.specs.Records.{AreVolumes, records_of};
ghost use Rattle.loader.specs.Refusals.{IsRefusedRightly};
ghost use Rattle.low_trail.specs.LowTrail.{low_trail, low_order, low_machine};
ghost use Rattle.machine.specs.Banks.{machine_of};
ghost use Rattle.schedule.specs.Schedule.{events_of};

use access_laws::access_laws;
use audit_trail::{Entry, audit, line_law};
use config_text::Config;
use flow_laws::flow_laws;
use loader::{LoadError, load_state_low, model_state, volumes_law};
use low_run::low_events;
use machine::Machine;
use schedule::events;
use std::alloc::Global;
use trail_laws::trail;
use volume_image::Volume;
use whole_machine::ProcName;
use words_layout::PlainWords;

/// The trail of a run, and the machine of words after it.
#[derive(Drop)]
pub struct LowTrail {
    pub entries: Vec<Entry>,
    pub machine: Machine<PlainWords>,
}

/// The order of effect of a run, and the machine of words after it.
#[derive(Drop)]
struct LowOrder {
    names: Vec<ProcName>,
    machine: Machine<PlainWords>,
}

/// The order of effect of the schedule's events at or below the class, where only what is at or below it is loaded.
fn order_of_low(
    alloc: Global,
    config: &Config,
    volumes: &[(u8, Volume)],
    class: u8,
) -> Result<LowOrder, LoadError>
    requires valid { IsValid config.now }
    requires volumes { AreVolumes config.now volumes.now }
    requires class { class < length config.now.table }
    ensures names { IfOk result (λ x. All (λ n. n.class < length config.now.table) x.names.items) }
    ensures order { IfOk result (λ x. x.names.items ≡ low_order class (configuration config.now (records_of volumes.now)) (events_of config.now)) }
    ensures machine { IfOk result (λ x. machine_of x.machine ≡ low_machine class (configuration config.now (records_of volumes.now)) (events_of config.now)) }
    ensures fault { IsRefusedRightly config.now volumes.now result }
{
    let mut machine = load_state_low(alloc, config, volumes, class)?;
    let events = events(alloc, config)?;
    let low = low_events(alloc, &config.table, events.as_slice(), class)?;
    let names = trail(alloc, &mut machine, low.as_slice())?;
    Ok(LowOrder { names, machine })
}

/// The trail of the schedule's events at or below the class, where only what is at or below it is loaded: the entries of the
/// machine of whole instructions in the order of effect of the machine of words. Each access in it is allowed by the labels and
/// brackets that segments were given. NoMemory may come at any point.
pub fn trail_of_low(
    alloc: Global,
    config: &Config,
    volumes: &[(u8, Volume)],
    class: u8,
) -> Result<LowTrail, LoadError>
    requires valid { IsValid config.now }
    requires volumes { AreVolumes config.now volumes.now }
    requires class { class < length config.now.table }
    ensures trail { IfOk result (λ x. x.entries.items ≡ low_trail class (configuration config.now (records_of volumes.now)) (events_of config.now)) }
    ensures allowed { IfOk result (λ _. all_allowed (low_config class (configuration config.now (records_of volumes.now)))
        (low_order class (configuration config.now (records_of volumes.now)) (events_of config.now)) ≡ true) }
    ensures lines { IfOk result (λ x. AllByRecursion HasLine x.entries.items) }
    ensures machine { IfOk result (λ x. machine_of x.machine ≡ low_machine class (configuration config.now (records_of volumes.now)) (events_of config.now)) }
    ensures fault { IsRefusedRightly config.now volumes.now result }
{
    access_laws();
    flow_laws();
    line_law();
    volumes_law();
    let order = order_of_low(alloc, config, volumes, class)?;
    let mut state = model_state(alloc, config, volumes, class)?;
    let entries = audit(alloc, &mut state, order.names.as_slice())?;
    Ok(LowTrail {
        entries,
        machine: order.machine,
    })
}
