//! The machine of whole instructions at the opening of what a class sees.

ghost use Rattle.std.specs.Prelude.{◌≡◌, ◌<◌, ◌==◌, ◌&&◌, [], length, count_by, IfOk, OnOk, None};
ghost use Rattle.std.specs.List.{AllByRecursion};
ghost use Rattle.config_text.specs.Valid.{IsValid};
ghost use Rattle.config_text.specs.declared.config.ProcessLine.{ProcessLine as ProcessText};
ghost use Rattle.class_model.specs.Config.{classes, shared_of, low_config};
ghost use Rattle.class_model.specs.Run.{alias_of, opening};
ghost use Rattle.class_model.specs.State.{process_at};
ghost use Rattle.whole_machine.specs.Building.{with_new, recorded, all_recorded, bare};
ghost use Rattle.whole_machine.specs.Parts.{state_of};
ghost use Rattle.loader.specs.Building.{IsPut, name_of, low_of};
ghost use Rattle.loader.specs.Configuration.{configuration};
ghost use Rattle.loader.specs.Records.{AreVolumes, records_of};
ghost use Rattle.loader.specs.Refusals.{IsRefusedRightly};

use crate::judging::first_fault;
use crate::loading::LoadError;
use crate::seeing::records_seen;
use crate::shared::shared_seen;
use config_text::{Config, ProcessLine};
use std::alloc::{AllocError, Global};
use volume_image::{SegRecord, Volume};
use whole_machine::{ModelState, ProcName};
use words_layout::Alias;

/// What the entry of its mentor holds of a segment.
fn alias_of(segment: &SegRecord) -> Alias
    ensures { result ≡ alias_of segment.now }
{
    Alias {
        class: segment.class,
        r1: segment.brackets.r1,
        r2: segment.brackets.r2,
        r3: segment.brackets.r3,
        size: segment.size,
        serial: segment.seg.serial,
    }
}

/// Puts a record.
fn put_record(state: &mut ModelState, segment: SegRecord) -> Result<(), AllocError>
    requires { IsPut (classes state.old.shared) segment }
    ensures shared { state.new.shared ≡ state.old.shared }
    ensures put { OnOk result (state_of state.new ≡ recorded (state_of state.old) segment) }
{
    let child = alias_of(&segment);
    state.put_record(
        segment.seg.mentor,
        segment.mentor,
        segment.entry,
        &child,
        segment.kept,
    )
}

/// Puts records, one after the other.
fn put_records(state: &mut ModelState, records: Vec<SegRecord>) -> Result<(), AllocError>
    requires { AllByRecursion (IsPut (classes state.old.shared)) records.items }
    ensures shared { state.new.shared ≡ state.old.shared }
    ensures put { OnOk result (state_of state.new ≡ all_recorded (state_of state.old) records.items) }
{
    for segment in records {
        put_record(state, segment)?;
    }
    Ok(())
}

/// How many of the lines are of a processor and class.
fn lines_of(lines: &[ProcessLine], processor: u8, class: u8) -> usize
    ensures { result ≡ count_by (λ (x : ProcessText). x.processor == processor && x.class == class) lines.now }
{
    lines
        .iter()
        .filter(|line| line.processor == processor && line.class == class)
        .count()
}

/// Puts the process of a line into the next slot of its processor and class, where it follows these lines.
fn put_line(
    state: &mut ModelState,
    front: &[ProcessLine],
    line: &ProcessLine,
) -> Result<(), AllocError>
    requires class { line.now.class < classes state.old.shared }
    requires processor { line.now.processor < 4 }
    requires slot { (name_of front.now line.now).slot < 4 }
    requires absent { process_at (state_of state.old) (name_of front.now line.now) ≡ None }
    ensures shared { state.new.shared ≡ state.old.shared }
    ensures put { OnOk result (state_of state.new ≡ with_new (state_of state.old) (name_of front.now line.now) line.now.script line.now.ring) }
{
    let name = ProcName {
        processor: line.processor,
        class: line.class,
        slot: lines_of(front, line.processor, line.class) as u8,
    };
    state.put_process(&name, line.script, line.ring)
}

/// Puts the processes of the lines whose class is at or below that one.
fn put_lines(state: &mut ModelState, config: &Config, class: u8) -> Result<(), AllocError>
    requires valid { IsValid config.now }
    requires class { class < length config.now.table }
    requires shared { state.old.shared ≡ shared_of (low_of config.now class) }
    requires opening { state_of state.old ≡ opening (bare (low_of config.now class)) }
    ensures shared { state.new.shared ≡ state.old.shared }
    ensures opening { OnOk result (state_of state.new ≡ opening (low_of config.now class)) }
{
    let lines = config.processes.as_slice();
    for index in 0..lines.len() {
        let line = &lines[index];
        if config.table.below(line.class, class) {
            put_line(state, &lines[..index], line)?;
        }
    }
    Ok(())
}

/// The opening of what is at or below a class, without the records.
fn without_records(alloc: Global, config: &Config, class: u8) -> Result<ModelState, AllocError>
    requires valid { IsValid config.now }
    requires class { class < length config.now.table }
    ensures shared { IfOk result (λ m. m.shared ≡ shared_of (low_of config.now class)) }
    ensures opening { IfOk result (λ m. state_of m ≡ opening (low_of config.now class)) }
{
    let shared = shared_seen(alloc, config, Some(class))?;
    let mut state = ModelState::opening(alloc, shared)?;
    put_lines(&mut state, config, class)?;
    Ok(state)
}

/// The state of the machine of whole instructions at the opening of a valid configuration with its volumes, with every script,
/// gate, process, entry and content blanked in its place whose class isn't at or below that one; or the first record at fault
/// of them all.
pub fn model_state(
    alloc: Global,
    config: &Config,
    volumes: &[(u8, Volume)],
    class: u8,
) -> Result<ModelState, LoadError>
    requires valid { IsValid config.now }
    requires volumes { AreVolumes config.now volumes.now }
    requires class { class < length config.now.table }
    ensures opening { IfOk result (λ m. state_of m ≡ opening (low_config class (configuration config.now (records_of volumes.now)))) }
    ensures classes { IfOk result (λ m. classes m.shared ≡ length config.now.table) }
    ensures fault { IsRefusedRightly config.now volumes.now result }
{
    if let Some(fault) = first_fault(config, volumes) {
        return Err(LoadError::Fault {
            volume: fault.volume,
            item: fault.item,
            code: fault.code,
        });
    }
    let records = records_seen(alloc, config, volumes, Some(class))?;
    let mut state = without_records(alloc, config, class)?;
    put_records(&mut state, records.into_vec())?;
    Ok(state)
}
