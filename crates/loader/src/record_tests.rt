//! What may be wrong with a record, given all records and those before it.

ghost use Rattle.std.specs.Prelude.{◌≡◌, ◌<◌, ◌+◌, ◌++◌, [], ◌∷◌, ◌==◌, not, nat_lt, length, slice_index, count_by, option_map};
ghost use Rattle.std.specs.List.{list_any};
ghost use Rattle.words_layout.specs.Segments.{same_seg};
ghost use Rattle.class_model.specs.Config.{pool_of, shared_of};
ghost use Rattle.class_model.specs.Config.{SegRecord as RecordValue};
ghost use Rattle.class_model.specs.Valid.{first_record};
ghost use Rattle.loader.specs.Configuration.{configuration};
ghost use Rattle.loader.specs.Records.{records_of, named_by, same_entry, is_kept, mentor_right};

use config_text::Config;
use volume_image::{SegRecord, Volume};
use words_layout::SegId;

/// Whether both are the same identity.
fn is_same(a: SegId, b: SegId) -> bool
    ensures { result ≡ same_seg a b }
{
    a.mentor == b.mentor && a.serial == b.serial
}

/// Whether the pool of the class names another volume.
pub fn has_other_volume(config: &Config, number: u8, class: u8) -> bool
    requires { class < length config.now.pools }
    ensures { result ≡ not (slice_index (named_by config.now) class == number) }
{
    config.pools.as_slice()[class as usize].volume != number
}

/// Whether one of the records has the identity.
fn has_identity(records: &[SegRecord], seg: SegId) -> bool
    ensures { result ≡ list_any (λ (x : RecordValue). same_seg x.seg seg) records.now }
{
    records.iter().any(|item| is_same(item.seg, seg))
}

/// Whether a record of the volumes or one of the others has the identity.
pub fn stood(earlier: &[(u8, Volume)], front: &[SegRecord], seg: SegId) -> bool
    ensures { result ≡ list_any (λ (x : RecordValue). same_seg x.seg seg) (records_of earlier.now ++ front.now) }
{
    for index in 0..earlier.len() {
        if has_identity(earlier[index].1.list(), seg) {
            return true;
        }
    }
    has_identity(front, seg)
}

/// Whether one of the records stands in the entry of that one.
fn has_entry(records: &[SegRecord], segment: &SegRecord) -> bool
    ensures { result ≡ list_any (same_entry segment.now) records.now }
{
    records.iter().any(|item| {
        is_same(item.mentor, segment.mentor)
            && item.seg.mentor == segment.seg.mentor
            && item.entry == segment.entry
    })
}

/// Whether a record of the volumes or one of the others stands in the entry of that one.
pub fn is_entry_taken(earlier: &[(u8, Volume)], front: &[SegRecord], segment: &SegRecord) -> bool
    ensures { result ≡ list_any (same_entry segment.now) (records_of earlier.now ++ front.now) }
{
    for index in 0..earlier.len() {
        if has_entry(earlier[index].1.list(), segment) {
            return true;
        }
    }
    has_entry(front, segment)
}

/// The class of the first of the records that has the identity.
fn class_among(records: &[SegRecord], seg: SegId) -> Option<u8>
    ensures { result ≡ option_map (λ (x : RecordValue). x.class) (first_record records.now seg) }
{
    for index in 0..records.len() {
        let item = &records[index];
        if is_same(item.seg, seg) {
            return Some(item.class);
        }
    }
    None
}

/// The class of the first record of the volumes that has the identity.
fn class_of(volumes: &[(u8, Volume)], seg: SegId) -> Option<u8>
    ensures { result ≡ option_map (λ (x : RecordValue). x.class) (first_record (records_of volumes.now) seg) }
{
    for index in 0..volumes.len() {
        if let Some(class) = class_among(volumes[index].1.list(), seg) {
            return Some(class);
        }
    }
    None
}

/// Whether the mentor is the root or a record of the volumes, and of the class that the identity says.
pub fn is_mentor_right(volumes: &[(u8, Volume)], segment: &SegRecord) -> bool
    ensures { result ≡ mentor_right (records_of volumes.now) segment.now }
{
    if is_same(
        segment.mentor,
        SegId {
            mentor: 0,
            serial: 0,
        },
    ) {
        return segment.seg.mentor == 0;
    }
    match class_of(volumes, segment.mentor) {
        None => false,
        Some(class) => class == segment.seg.mentor,
    }
}

/// How many of the records are kept ones of the class.
fn kept_among(records: &[SegRecord], class: u8) -> usize
    ensures { result ≡ count_by (is_kept class) records.now }
{
    records
        .iter()
        .filter(|item| item.class == class && item.kept.is_some())
        .count()
}

/// How many records of the volumes are kept ones of the class.
fn kept_of(volumes: &[(u8, Volume)], class: u8) -> usize
    requires { length (records_of volumes.now) < 65536 }
    ensures { result ≡ count_by (is_kept class) (records_of volumes.now) }
{
    let mut count: usize = 0;
    for index in 0..volumes.len() {
        count += kept_among(volumes[index].1.list(), class);
    }
    count
}

/// Whether the class of that record has more kept ones than pages, with it.
pub fn has_too_few_pages(
    config: &Config,
    earlier: &[(u8, Volume)],
    front: &[SegRecord],
    segment: &SegRecord,
) -> bool
    requires class { segment.now.class < length config.now.pools }
    requires few { length (records_of earlier.now) + length front.now < 65536 }
    ensures { result ≡ nat_lt (pool_of (shared_of (configuration config.now [])) segment.now.class).pages (count_by (is_kept segment.now.class) ((records_of earlier.now ++ front.now) ++ segment.now ∷ [])) }
{
    let own = usize::from(segment.kept.is_some());
    let before = kept_of(earlier, segment.class) + kept_among(front, segment.class);
    (config.pools.as_slice()[segment.class as usize].pages as usize) < before + own
}
