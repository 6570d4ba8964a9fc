//! The lines of segments.

ghost use Rattle.std.specs.Prelude.{◌≡◌, ◌<◌, ◌++◌, ◌%◌, ◌^◌, ℕ, map, OnOk, IfOk, Some, None, length, string_bytes};
ghost use Rattle.std.specs.Option.{option_map};
ghost use Rattle.std.specs.List.{flat_map};
ghost use Rattle.lists.specs.Lists.{below};
ghost use Rattle.words_layout.specs.Segments.{seg};
ghost use Rattle.class_model.specs.Config.{classes};
ghost use Rattle.class_model.specs.State.{eventcount, identities};
ghost use Rattle.class_model.specs.Report.{words_text, entry_text, segment_text};
ghost use Rattle.class_model.specs.Section.{seen_entries, seen_segment, shown_words};
ghost use Rattle.whole_machine.specs.Parts.{cell_in, no_part};
ghost use Rattle.whole_machine.specs.Steps.{standing};
ghost use Rattle.whole_machine.specs.Texts.{place_text, touched_text, cell_text};

use crate::cell::CellState;
use crate::looks::{component, components, part_at};
use crate::part::PartState;
use crate::text::{push_named, push_numbers};
use class_model::Shared;
use std::alloc::{AllocError, Global};
use words_layout::{Alias, SERIAL_LIMIT, SegId};

/// Writes the line of an entry.
#[tactic(auto, using(crate::proofs::SegmentPieces::entry_pieces))]
fn push_entry(
    alloc: Global,
    out: &mut String,
    number: usize,
    alias: &Alias,
) -> Result<(), AllocError>
    ensures { OnOk result (string_bytes out.new ≡ string_bytes out.old ++ entry_text (number, alias.now)) }
{
    push_named(alloc, out, "entry ", number as u64)?;
    push_named(alloc, out, " class ", u64::from(alias.class))?;
    push_named(alloc, out, " brackets ", u64::from(alias.r1))?;
    push_named(alloc, out, " ", u64::from(alias.r2))?;
    push_named(alloc, out, " ", u64::from(alias.r3))?;
    push_named(alloc, out, " size ", u64::from(alias.size))?;
    push_named(alloc, out, " serial ", u64::from(alias.serial))?;
    out.push_str("\n")?;
    Ok(())
}

/// Writes the line of what stands at a place among the entries.
fn push_place(
    alloc: Global,
    out: &mut String,
    number: usize,
    entry: Option<Alias>,
) -> Result<(), AllocError>
    ensures { OnOk result (string_bytes out.new ≡ string_bytes out.old ++ place_text number entry) }
{
    match entry {
        None => Ok(()),
        Some(alias) => push_entry(alloc, out, number, &alias),
    }
}

/// Writes the lines of the entries.
fn push_entries(
    alloc: Global,
    out: &mut String,
    entries: &[Option<Alias>],
) -> Result<(), AllocError>
    ensures { OnOk result (string_bytes out.new ≡ string_bytes out.old ++ flat_map entry_text (seen_entries entries.now)) }
{
    for number in 0..entries.len() {
        push_place(alloc, out, number, entries[number])?;
    }
    Ok(())
}

/// Writes a line of words.
#[tactic(auto, using(crate::proofs::SegmentPieces::words_pieces))]
fn push_words(alloc: Global, out: &mut String, words: &[u64]) -> Result<(), AllocError>
    ensures { OnOk result (string_bytes out.new ≡ string_bytes out.old ++ words_text (Some words.now)) }
{
    out.push_str("words")?;
    push_numbers(alloc, out, words)?;
    out.push_str("\n")?;
    Ok(())
}

/// Writes the line of the words of a cell, if they are shown.
fn push_shown(alloc: Global, out: &mut String, cell: &CellState) -> Result<(), AllocError>
    ensures { OnOk result (string_bytes out.new ≡ string_bytes out.old ++ words_text (shown_words cell.now.home cell.now.stored)) }
{
    match cell.shown_words() {
        None => Ok(()),
        Some(words) => push_words(alloc, out, words),
    }
}

/// Writes the lines of a segment.
#[tactic(auto, using(crate::proofs::SegmentPieces::segment_pieces))]
fn push_segment(
    alloc: Global,
    out: &mut String,
    seg: SegId,
    cell: &CellState,
    count: u64,
) -> Result<(), AllocError>
    ensures { OnOk result (string_bytes out.new ≡ string_bytes out.old ++ segment_text (seen_segment seg cell.now count)) }
{
    push_named(alloc, out, "segment ", u64::from(seg.mentor))?;
    push_named(alloc, out, " ", u64::from(seg.serial))?;
    out.push_str(" ")?;
    out.push_str(cell.home_name())?;
    push_named(alloc, out, " writes ", cell.writes())?;
    push_named(alloc, out, " count ", count)?;
    push_named(alloc, out, " tickets ", cell.sequencer())?;
    out.push_str("\n")?;
    push_shown(alloc, out, cell)?;
    push_entries(alloc, out, cell.entries().as_slice())?;
    Ok(())
}

/// The eventcount of the cell of a class.
fn eventcount(shared: &Shared, parts: &[PartState], class: u8, seg: SegId) -> u64
    requires { class < classes shared.now }
    ensures { result ≡ eventcount (standing shared.now parts.now) class seg }
{
    let mut sum = 0u64;
    for low in components(shared.table(), class).as_slice() {
        sum = sum.wrapping_add(component(parts, *low, class, seg));
    }
    sum
}

/// Writes the lines of the segment of a class and an identity, if it was touched.
fn push_cell(
    alloc: Global,
    out: &mut String,
    shared: &Shared,
    parts: &[PartState],
    class: u8,
    seg: SegId,
) -> Result<(), AllocError>
    requires class { class < classes shared.now }
    requires parts { class < length parts.now }
    ensures { OnOk result (string_bytes out.new ≡ string_bytes out.old ++ cell_text (standing shared.now parts.now) class seg) }
{
    let cell = part_at(parts, class).cell(seg);
    let count = eventcount(shared, parts, class, seg);
    if !cell.is_touched(count) {
        return Ok(());
    }
    push_segment(alloc, out, seg, cell, count)
}

/// Writes the lines of the touched segments of a class under mentors of a class, as far as serials are below a limit.
fn push_under(
    alloc: Global,
    out: &mut String,
    shared: &Shared,
    parts: &[PartState],
    class: u8,
    mentor: u8,
    limit: u8,
) -> Result<(), AllocError>
    requires class { class < classes shared.now }
    requires parts { class < length parts.now }
    ensures { OnOk result (string_bytes out.new ≡ string_bytes out.old ++ flat_map (cell_text (standing shared.now parts.now) class) (map (λ s. seg mentor s) (below limit))) }
{
    for serial in 0..limit {
        push_cell(alloc, out, shared, parts, class, SegId { mentor, serial })?;
    }
    Ok(())
}

/// Writes the lines of the touched segments of a class.
pub(crate) fn push_segments(
    alloc: Global,
    out: &mut String,
    shared: &Shared,
    parts: &[PartState],
    class: u8,
) -> Result<(), AllocError>
    requires class { class < classes shared.now }
    requires parts { class < length parts.now }
    ensures { OnOk result (string_bytes out.new ≡ string_bytes out.old ++ flat_map (cell_text (standing shared.now parts.now) class) (identities (classes shared.now))) }
{
    for mentor in 0..shared.table().count() {
        push_under(alloc, out, shared, parts, class, mentor, SERIAL_LIMIT)?;
    }
    Ok(())
}
