//! The virtual processors, with the processes that there are at the opening.

ghost use Rattle.std.specs.Prelude.{◌≡◌, ◌<◌, IfOk, length};
ghost use Rattle.config_text.specs.Valid.{IsValid};
ghost use Rattle.loader.specs.Loading.{whole_vp, loaded_vp, loaded_bank, loaded_banks};
ghost use Rattle.loader.specs.Seen.{IsView};

use crate::seeing::is_seen;
use config_text::Config;
use machine::{Bank, Banks, VirtualProcessor};
use process::Process;
use std::alloc::{AllocError, Global};

/// The virtual processor of a class on a processor. The processes of its lines stand in its slots, in their order.
fn virtual_processor_of(
    alloc: Global,
    config: &Config,
    processor: u8,
    class: u8,
) -> Result<VirtualProcessor, AllocError>
    requires valid { IsValid config.now }
    requires processor { processor < config.now.processors }
    requires class { class < length config.now.table }
    ensures { IfOk result (λ v. v ≡ whole_vp config.now processor class) }
{
    let mut loaded = VirtualProcessor::new(alloc, class, config.console)?;
    let mut slot = 0;
    for line in config.processes.as_slice() {
        if line.processor == processor && line.class == class {
            loaded.put(slot, Process::new(class, line.script, line.ring, 0));
            slot += 1;
        }
    }
    Ok(loaded)
}

/// Likewise as the view shows it: with no process where it doesn't show the class.
fn virtual_processor_seen(
    alloc: Global,
    config: &Config,
    view: Option<u8>,
    processor: u8,
    class: u8,
) -> Result<VirtualProcessor, AllocError>
    requires valid { IsValid config.now }
    requires view { IsView config.now.table view }
    requires processor { processor < config.now.processors }
    requires class { class < length config.now.table }
    ensures { IfOk result (λ v. v ≡ loaded_vp config.now view processor class) }
{
    if !is_seen(&config.table, view, class) {
        return VirtualProcessor::new(alloc, class, config.console);
    }
    virtual_processor_of(alloc, config, processor, class)
}

/// The virtual processors of a processor as the view shows them.
fn bank_seen(
    alloc: Global,
    config: &Config,
    view: Option<u8>,
    processor: u8,
) -> Result<Bank, AllocError>
    requires valid { IsValid config.now }
    requires view { IsView config.now.table view }
    requires processor { processor < config.now.processors }
    ensures { IfOk result (λ b. b ≡ loaded_bank config.now view processor) }
{
    let mut bank = Vec::new(alloc);
    for class in 0..config.table.count() {
        bank.push(virtual_processor_seen(alloc, config, view, processor, class)?)?;
    }
    Ok(Bank::of(bank))
}

/// The virtual processors of all processors as the view shows them: None shows all, and a class what is at or below it.
pub fn banks_seen(alloc: Global, config: &Config, view: Option<u8>) -> Result<Banks, AllocError>
    requires valid { IsValid config.now }
    requires view { IsView config.now.table view }
    ensures { IfOk result (λ b. b ≡ loaded_banks config.now view) }
{
    let mut banks = Vec::new(alloc);
    for processor in 0..config.processors {
        banks.push(bank_seen(alloc, config, view, processor)?)?;
    }
    Ok(Banks::of(banks))
}
