//! What a view shows of the records of volumes.

ghost use Rattle.std.specs.Prelude.{◌≡◌, ◌<◌, ◌++◌, length, IfOk, OnOk};
ghost use Rattle.std.specs.List.{All, filter_map};
ghost use Rattle.std.specs.Option.{option_map, option_to_list};
ghost use Rattle.class_model.specs.Config.{low_record};
ghost use Rattle.loader.specs.Configuration.{configuration};
ghost use Rattle.loader.specs.Records.{AreVolumes, records_of};
ghost use Rattle.loader.specs.Seen.{seen, IsView, sees, kept_seen, HasClasses};

use config_text::Config;
use labels::ClassTable;
use lists::Items;
use std::alloc::{AllocError, Global};
use volume_image::{SegRecord, Volume};

/// Whether the view shows what is of the class.
pub fn is_seen(table: &ClassTable, view: Option<u8>, class: u8) -> bool
    requires view { IsView table.now view }
    requires class { class < length table.now }
    ensures { result ≡ sees table.now view class }
{
    match view {
        None => true,
        Some(top) => table.below(class, top),
    }
}

/// A copy of the words of a record, where they were kept and the view shows them.
fn kept_seen(
    alloc: Global,
    table: &ClassTable,
    view: Option<u8>,
    segment: &SegRecord,
) -> Result<Option<Vec<u64>>, AllocError>
    requires view { IsView table.now view }
    requires class { segment.now.class < length table.now }
    ensures { IfOk result (λ kept. option_map (λ words. words.items) kept ≡ kept_seen table.now view segment.now) }
{
    if !is_seen(table, view, segment.class) {
        return Ok(None);
    }
    match &segment.kept {
        None => Ok(None),
        Some(words) => {
            let copy = Vec::from_slice(alloc, words.as_slice())?;
            Ok(Some(copy))
        }
    }
}

/// A copy of a record as the view shows it. None exactly where the view doesn't show its entry.
fn record_seen(
    alloc: Global,
    table: &ClassTable,
    view: Option<u8>,
    segment: &SegRecord,
) -> Result<Option<SegRecord>, AllocError>
    requires view { IsView table.now view }
    requires classes { HasClasses table.now segment.now }
    ensures { IfOk result (λ shown. shown ≡ low_record (sees table.now view) segment.now) }
{
    if !is_seen(table, view, segment.seg.mentor) {
        return Ok(None);
    }
    let kept = kept_seen(alloc, table, view, segment)?;
    Ok(Some(SegRecord {
        seg: segment.seg,
        class: segment.class,
        brackets: segment.brackets,
        size: segment.size,
        mentor: segment.mentor,
        entry: segment.entry,
        kept,
    }))
}

/// Appends the record, if there is one.
fn push_shown(records: &mut Vec<SegRecord>, shown: Option<SegRecord>) -> Result<(), AllocError>
    ensures { OnOk result (records.new.items ≡ records.old.items ++ option_to_list shown) }
{
    if let Some(segment) = shown {
        records.push(segment)?;
    }
    Ok(())
}

/// Appends copies of the records as the view shows them.
fn add_records(
    alloc: Global,
    table: &ClassTable,
    view: Option<u8>,
    records: &[SegRecord],
    seen: &mut Vec<SegRecord>,
) -> Result<(), AllocError>
    requires view { IsView table.now view }
    requires classes { All (HasClasses table.now) records.now }
    ensures { OnOk result (seen.new.items ≡ seen.old.items ++ filter_map (low_record (sees table.now view)) records.now) }
{
    for segment in records {
        let shown = record_seen(alloc, table, view, segment)?;
        push_shown(seen, shown)?;
    }
    Ok(())
}

/// Copies of the records of volumes as the view shows them, in the order of loading. The view is None for all of them, or the
/// class at or below which they are shown.
pub fn records_seen(
    alloc: Global,
    config: &Config,
    volumes: &[(u8, Volume)],
    view: Option<u8>,
) -> Result<Items<SegRecord>, AllocError>
    requires volumes { AreVolumes config.now volumes.now }
    requires view { IsView config.now.table view }
    ensures { IfOk result (λ records. records ≡ (seen (configuration config.now (records_of volumes.now)) view).records) }
{
    let mut all = Vec::new(alloc);
    for place in 0..volumes.len() {
        let records = volumes[place].1.list();
        add_records(alloc, &config.table, view, records, &mut all)?;
    }
    Ok(Items::of(all))
}
