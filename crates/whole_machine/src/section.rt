//! The section of a class.

ghost use Rattle.std.specs.Prelude.{◌≡◌, ◌<◌, ◌++◌, OnOk, IfOk, length, string_bytes};
ghost use Rattle.class_model.specs.Config.{classes};
ghost use Rattle.class_model.specs.Report.{closing_text, some_live};
ghost use Rattle.class_model.specs.Section.{section, seen_processes, seen_segments};
ghost use Rattle.whole_machine.specs.Parts.{state_of};
ghost use Rattle.whole_machine.specs.Fits.{PartsFit, part_of_class};
ghost use Rattle.whole_machine.specs.Steps.{standing};

use crate::looks::part_at;
use crate::part::PartState;
use crate::processes::{push_processes, some_live};
use crate::segments::push_segments;
use crate::state::ModelState;
use crate::text::{push_class_line, push_lines};
use class_model::Shared;
use std::alloc::{AllocError, Global};

/// Writes open and nothing more while a process of the class is live, else closed and the segments.
fn push_closing(
    alloc: Global,
    out: &mut String,
    shared: &Shared,
    parts: &[PartState],
    class: u8,
) -> Result<(), AllocError>
    requires class { class < classes shared.now }
    requires parts { class < length parts.now }
    ensures { OnOk result (string_bytes out.new ≡ string_bytes out.old ++
        closing_text (some_live (seen_processes (part_of_class parts.now class).slots)) (seen_segments (standing shared.now parts.now) class)) }
{
    if some_live(part_at(parts, class)) {
        return out.push_str("open\n");
    }
    out.push_str("closed\n")?;
    push_segments(alloc, out, shared, parts, class)?;
    Ok(())
}

/// Writes the section of a class.
fn push_section(
    alloc: Global,
    out: &mut String,
    shared: &Shared,
    parts: &[PartState],
    class: u8,
) -> Result<(), AllocError>
    requires fits { PartsFit shared.now parts.now }
    requires class { class < classes shared.now }
    ensures { OnOk result (string_bytes out.new ≡ string_bytes out.old ++ section class (standing shared.now parts.now)) }
{
    let part = part_at(parts, class);
    push_class_line(alloc, out, class, shared.table().name(class))?;
    push_lines(alloc, out, part.lines())?;
    push_processes(alloc, out, part)?;
    push_closing(alloc, out, shared, parts, class)?;
    Ok(())
}

/// The text of the section of a class.
pub fn model_section(alloc: Global, state: &ModelState, class: u8) -> Result<String, AllocError>
    requires { class < classes state.now.shared }
    ensures { IfOk result (λ t. string_bytes t ≡ section class (state_of state.now)) }
{
    let mut out = String::new(alloc);
    push_section(
        alloc,
        &mut out,
        &state.shared,
        state.parts.as_slice(),
        class,
    )?;
    Ok(out)
}
