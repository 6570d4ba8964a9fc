//! The processes of the large configuration.

ghost use Rattle.std.specs.Prelude.{◌≡◌, ◌<◌, ◌++◌, IfOk, OnOk, map};
ghost use Rattle.std.specs.List.{flat_map};
ghost use Rattle.lists.specs.Lists.{below};
ghost use Rattle.workload.specs.Large.{large_process, large_processes};

use crate::classes::CLASSES;
use config_text::ProcessLine;
use lists::Items;
use rings::Ring;
use std::alloc::{AllocError, Global};

/// How many processors there are.
pub const PROCESSORS: u8 = 4;

/// How many processes of a class there are on a processor.
const SLOTS: u8 = 4;

/// The process of a class in a slot of a processor. The very first one has script 0.
fn process(processor: u8, class: u8, slot: u8) -> ProcessLine
    requires { class < 8 }
    ensures { result ≡ large_process processor class slot }
{
    let script = if processor == 0 && class == 0 && slot == 0 {
        0
    } else {
        class + 1
    };
    ProcessLine {
        processor,
        class,
        script,
        ring: Ring(4),
    }
}

/// Appends the processes of a class on a processor.
fn push_class(lines: &mut Vec<ProcessLine>, processor: u8, class: u8) -> Result<(), AllocError>
    requires { class < 8 }
    ensures { OnOk result (lines.new.items ≡ lines.old.items ++ map (large_process processor class) (below 4)) }
{
    for slot in 0..SLOTS {
        lines.push(process(processor, class, slot))?;
    }
    Ok(())
}

/// Appends the processes of a processor.
fn push_processor(lines: &mut Vec<ProcessLine>, processor: u8) -> Result<(), AllocError>
    ensures { OnOk result (lines.new.items ≡ lines.old.items ++ flat_map (λ k. map (large_process processor k) (below 4)) (below 8)) }
{
    for class in 0..CLASSES {
        push_class(lines, processor, class)?;
    }
    Ok(())
}

/// All processes, by processor, class and slot.
pub fn processes(alloc: Global) -> Result<Items<ProcessLine>, AllocError>
    ensures { IfOk result (λ lines. lines ≡ large_processes) }
{
    let mut lines = Vec::new(alloc);
    for processor in 0..PROCESSORS {
        push_processor(&mut lines, processor)?;
    }
    Ok(Items::of(lines))
}
