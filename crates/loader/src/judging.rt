//! Which record of the volumes is at fault.

ghost use Rattle.std.specs.Prelude.{◌≡◌, ◌<◌, ◌+◌, ◌++◌, length};
ghost use Rattle.text_lines.specs.Faults.{first_code};
ghost use Rattle.config_text.specs.Valid.{IsValid};
ghost use Rattle.loader.specs.Records.{AreVolumes, Answers, AnswersIn, records_of, tests_of};

use crate::record_tests::{
    has_other_volume, has_too_few_pages, is_entry_taken, is_mentor_right, stood,
};
use config_text::Config;
use volume_image::{SegRecord, Volume};

/// A record at fault: the number of its volume, its place there from 0, and its least code.
#[derive(Clone, Copy, Debug, PartialEq, Eq)]
pub struct RecordFault {
    pub volume: u8,
    pub item: u16,
    pub code: u8,
}

/// The least code of a record of the volume of that number, which follows all those of the earlier volumes and those in
/// front of it in its own.
fn code_of(
    config: &Config,
    volumes: &[(u8, Volume)],
    earlier: &[(u8, Volume)],
    front: &[SegRecord],
    number: u8,
    segment: &SegRecord,
) -> Option<u8>
    requires class { segment.now.class < length config.now.pools }
    requires few { length (records_of earlier.now) + length front.now < 65536 }
    ensures { result ≡ first_code (tests_of config.now (records_of volumes.now) (records_of earlier.now ++ front.now) number segment.now) }
{
    if has_other_volume(config, number, segment.class) {
        return Some(1);
    }
    if stood(earlier, front, segment.seg) {
        return Some(2);
    }
    if !is_mentor_right(volumes, segment) {
        return Some(3);
    }
    if is_entry_taken(earlier, front, segment) {
        return Some(4);
    }
    if has_too_few_pages(config, earlier, front, segment) {
        return Some(5);
    }
    None
}

/// The first record at fault of the volume at that place.
fn fault_in(config: &Config, volumes: &[(u8, Volume)], place: usize) -> Option<RecordFault>
    requires valid { IsValid config.now }
    requires volumes { AreVolumes config.now volumes.now }
    requires place { place < length volumes.now }
    ensures { AnswersIn config.now volumes.now place result }
{
    let number = volumes[place].0;
    let records = volumes[place].1.list();
    let earlier = &volumes[..place];
    for item in 0..records.len() {
        let front = &records[..item];
        if let Some(code) = code_of(config, volumes, earlier, front, number, &records[item]) {
            return Some(RecordFault {
                volume: number,
                item: item as u16,
                code,
            });
        }
    }
    None
}

/// The first record at fault, in the order of loading.
pub fn first_fault(config: &Config, volumes: &[(u8, Volume)]) -> Option<RecordFault>
    requires valid { IsValid config.now }
    requires volumes { AreVolumes config.now volumes.now }
    ensures { Answers config.now volumes.now result }
{
    for place in 0..volumes.len() {
        if let Some(fault) = fault_in(config, volumes, place) {
            return Some(fault);
        }
    }
    None
}
