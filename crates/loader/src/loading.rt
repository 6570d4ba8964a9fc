//! The machine at the opening of a configuration with its volumes.

ghost use Rattle.std.specs.Prelude.{◌≡◌, ◌<◌, length, IfOk};
ghost use Rattle.config_text.specs.Valid.{IsValid};
ghost use Rattle.class_model.specs.Config.{low_config};
ghost use Rattle.machine.specs.Banks.{machine_of};
ghost use Rattle.machine.specs.Opening.{opening};
ghost use Rattle.loader.specs.declared.loading.LoadError.TheVariants.{NoMemory};
ghost use Rattle.loader.specs.Configuration.{configuration};
ghost use Rattle.loader.specs.Records.{AreVolumes, records_of};
ghost use Rattle.loader.specs.Refusals.{IsRefusedRightly};
ghost use Rattle.loader.specs.Seen.{seen, IsView};

use crate::judging::first_fault;
use crate::opening::machine_seen;
use crate::seeing::records_seen;
use config_text::Config;
use machine::Machine;
use std::alloc::{AllocError, Global};
use volume_image::Volume;
use words_layout::PlainWords;

/// Why volumes aren't loaded.
#[derive(Clone, Copy, Debug, PartialEq, Eq)]
pub enum LoadError {
    /// The first record at fault: the number of its volume, its place there from 0, and its least code. 1: the pool of its class
    /// names another volume. 2: its identity stood before. 3: its mentor is neither the root nor a record, or has another
    /// class than the identity says. 4: its mentor's entry stood before. 5: its class has more kept records up to here than
    /// pages.
    Fault { volume: u8, item: u16, code: u8 },
    NoMemory,
}

impl From<AllocError> for LoadError {
    ghost from_gives = { λ _ e. e ≡ NoMemory };

    fn from(_error: AllocError) -> LoadError {
        LoadError::NoMemory
    }
}

/// The machine at the opening of what the view shows of a configuration with its volumes, or their first record at fault.
fn load_seen(
    alloc: Global,
    config: &Config,
    volumes: &[(u8, Volume)],
    view: Option<u8>,
) -> Result<Machine<PlainWords>, LoadError>
    requires valid { IsValid config.now }
    requires volumes { AreVolumes config.now volumes.now }
    requires view { IsView config.now.table view }
    ensures opening { IfOk result (λ m. machine_of m ≡ opening (seen (configuration config.now (records_of volumes.now)) view)) }
    ensures processors { IfOk result (λ m. length m.banks ≡ config.now.processors) }
    ensures fault { IsRefusedRightly config.now volumes.now result }
{
    if let Some(fault) = first_fault(config, volumes) {
        return Err(LoadError::Fault {
            volume: fault.volume,
            item: fault.item,
            code: fault.code,
        });
    }
    let records = records_seen(alloc, config, volumes, view)?;
    let machine = machine_seen(alloc, config, view, records.as_slice())?;
    Ok(machine)
}

/// The machine at the opening of a valid configuration with its volumes, or their first record at fault. It takes all memory
/// that the machine will need.
pub fn load_state(
    alloc: Global,
    config: &Config,
    volumes: &[(u8, Volume)],
) -> Result<Machine<PlainWords>, LoadError>
    requires valid { IsValid config.now }
    requires volumes { AreVolumes config.now volumes.now }
    ensures opening { IfOk result (λ m. machine_of m ≡ opening (configuration config.now (records_of volumes.now))) }
    ensures processors { IfOk result (λ m. length m.banks ≡ config.now.processors) }
    ensures fault { IsRefusedRightly config.now volumes.now result }
{
    load_seen(alloc, config, volumes, None)
}

/// Likewise with every script, gate, process, entry and content blanked in its place whose class isn't at or below that one.
/// The refusals are those of all of it.
pub fn load_state_low(
    alloc: Global,
    config: &Config,
    volumes: &[(u8, Volume)],
    class: u8,
) -> Result<Machine<PlainWords>, LoadError>
    requires valid { IsValid config.now }
    requires volumes { AreVolumes config.now volumes.now }
    requires class { class < length config.now.table }
    ensures opening { IfOk result (λ m. machine_of m ≡ opening (low_config class (configuration config.now (records_of volumes.now)))) }
    ensures processors { IfOk result (λ m. length m.banks ≡ config.now.processors) }
    ensures fault { IsRefusedRightly config.now volumes.now result }
{
    load_seen(alloc, config, volumes, Some(class))
}
