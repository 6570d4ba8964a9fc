//! The records of a volume, and the words that they keep.

ghost use Rattle.std.specs.Prelude.{◌≡◌, ◌<◌, IfOk, OnOk, All, length, map, Some, option_map};
ghost use Rattle.std.specs.Prelude.{filter_map};
ghost use Rattle.labels.specs.Label.{at_or_below};
ghost use Rattle.class_model.specs.Config.{low_record};
ghost use Rattle.release_guard.specs.Guard.{is_same, record_of as spec_record_of, words_at as spec_words_at, is_exported as spec_is_exported, exported as spec_exported};
ghost use Rattle.release_guard.specs.Working.{renewed, IsInTable};

use crate::order::Order;
use std::alloc::{AllocError, Global};
use volume_image::SegRecord;
use words_layout::SegId;

/// Whether the identities are equal.
fn same_id(a: SegId, b: SegId) -> bool
    ensures { result ≡ is_same a b }
{
    a.mentor == b.mentor && a.serial == b.serial
}

/// The record of an identity.
pub fn record_of(records: &[SegRecord], seg: SegId) -> Option<&SegRecord>
    ensures { option_map (λ r. r.now) result ≡ spec_record_of records.now seg }
{
    records.iter().find(|record| same_id(record.seg, seg))
}

/// The words that a record keeps.
pub fn words_of(segment: &SegRecord) -> Option<&[u64]>
    ensures { option_map (λ w. w.now) result ≡ segment.now.kept }
{
    match &segment.kept {
        Some(words) => Some(words.as_slice()),
        None => None,
    }
}

/// A copy of a record.
fn copy_of(alloc: Global, segment: &SegRecord) -> Result<SegRecord, AllocError>
    ensures { IfOk result (λ r. r ≡ segment.now) }
{
    let kept = match &segment.kept {
        Some(words) => Some(Vec::from_slice(alloc, words.as_slice())?),
        None => None,
    };
    Ok(SegRecord {
        seg: segment.seg,
        class: segment.class,
        brackets: segment.brackets,
        size: segment.size,
        mentor: segment.mentor,
        entry: segment.entry,
        kept,
    })
}

/// A copy of the records.
pub fn copies_of(alloc: Global, records: &[SegRecord]) -> Result<Vec<SegRecord>, AllocError>
    ensures { IfOk result (λ v. v.items ≡ records.now) }
{
    let mut copies = Vec::new(alloc);
    for segment in records {
        copies.push(copy_of(alloc, segment)?)?;
    }
    Ok(copies)
}

/// Puts the words into the record, in place of those that it keeps, where it is the identity's.
fn renew(alloc: Global, segment: &mut SegRecord, to: SegId, words: &[u64]) -> Result<(), AllocError>
    ensures { OnOk result (segment.new ≡ renewed to words.now segment.old) }
{
    if same_id(to, segment.seg) {
        let copy = Vec::from_slice(alloc, words)?;
        segment.kept = Some(copy);
    }
    Ok(())
}

/// Puts the words into the record of an identity.
pub fn put_words(
    alloc: Global,
    records: &mut Vec<SegRecord>,
    to: SegId,
    words: &[u64],
) -> Result<(), AllocError>
    ensures { OnOk result (records.new.items ≡ map (renewed to words.now) records.old.items) }
{
    for segment in records.iter_mut() {
        renew(alloc, segment, to, words)?;
    }
    Ok(())
}

/// Whether the class is at or below the export class.
fn is_exported(order: &Order, class: u8) -> bool
    requires export { order.now.export < length order.now.table }
    requires class { class < length order.now.table }
    ensures { result ≡ spec_is_exported order.now class }
{
    order.table.below(class, order.export)
}

/// What is exported of a record.
fn export_of(order: &Order, segment: SegRecord) -> Option<SegRecord>
    requires export { order.now.export < length order.now.table }
    requires classes { IsInTable order.now.table segment }
    ensures { result ≡ low_record (spec_is_exported order.now) segment }
{
    if !is_exported(order, segment.seg.mentor) {
        return None;
    }
    if !is_exported(order, segment.class) {
        return Some(SegRecord {
            kept: None,
            ..segment
        });
    }
    Some(segment)
}

/// What is exported of the records.
pub fn export_all(
    alloc: Global,
    order: &Order,
    records: Vec<SegRecord>,
) -> Result<Vec<SegRecord>, AllocError>
    requires export { order.now.export < length order.now.table }
    requires classes { All (IsInTable order.now.table) records.items }
    ensures { IfOk result (λ v. v.items ≡ spec_exported order.now records.items) }
{
    let mut volume = Vec::new(alloc);
    for segment in records {
        if let Some(shown) = export_of(order, segment) {
            volume.push(shown)?;
        }
    }
    Ok(volume)
}
