//! The whole machine.

ghost use Rattle.std.specs.Prelude.{◌≡◌, [], List, IfOk, length};
ghost use Rattle.config_text.specs.Valid.{IsValid};
ghost use Rattle.class_model.specs.Config.{SegRecord as RecordValue};
ghost use Rattle.machine.specs.Banks.{machine_of};
ghost use Rattle.machine.specs.Opening.{opening};
ghost use Rattle.loader.specs.Configuration.{configuration};
ghost use Rattle.loader.specs.Seen.{seen, IsView};
ghost use Rattle.loader.specs.Stores.{AreStorable};

use crate::processors::banks_seen;
use crate::shared::shared_seen;
use crate::storing::words_with;
use config_text::Config;
use machine::{Machine, MachineParts};
use std::alloc::{AllocError, Global};
use volume_image::SegRecord;
use words_layout::PlainWords;

/// The machine at the opening of a configuration as the view shows it, where it shows these records.
pub fn machine_seen(
    alloc: Global,
    config: &Config,
    view: Option<u8>,
    records: &[SegRecord],
) -> Result<Machine<PlainWords>, AllocError>
    requires valid { IsValid config.now }
    requires view { IsView config.now.table view }
    requires records { AreStorable (length config.now.table) records.now }
    ensures opening { IfOk result (λ m. (all : List RecordValue) → (seen (configuration config.now all) view).records ≡ records.now → machine_of m ≡ opening (seen (configuration config.now all) view)) }
    ensures processors { IfOk result (λ m. length m.banks ≡ config.now.processors) }
{
    let shared = shared_seen(alloc, config, view)?;
    let banks = banks_seen(alloc, config, view)?;
    let words = words_with(alloc, config.table.count(), records)?;
    Ok(Machine::from_parts(MachineParts {
        words,
        banks,
        shared,
    }))
}

/// The machine at the opening of a valid configuration whose volumes hold nothing. It takes all memory that the machine
/// will need.
pub fn opening_machine(alloc: Global, config: &Config) -> Result<Machine<PlainWords>, AllocError>
    requires { IsValid config.now }
    ensures opening { IfOk result (λ m. machine_of m ≡ opening (configuration config.now [])) }
    ensures processors { IfOk result (λ m. length m.banks ≡ config.now.processors) }
{
    let none = Vec::new(alloc);
    let machine = machine_seen(alloc, config, None, none.as_slice())?;
    Ok(machine)
}
