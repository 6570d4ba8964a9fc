//! The volumes after a run.

ghost use Rattle.std.specs.Prelude.{◌≡◌, ◌≤◌, ◌<◌, ◌+◌, ◌*◌, ◌++◌, [], true, length, option_map, IfSome};
ghost use Rattle.std.specs.List.{filter_map, flat_map};
ghost use Rattle.lists.specs.Lists.{below};
ghost use Rattle.words_layout.specs.Sizes.{most_serials};
ghost use Rattle.words_layout.specs.Segments.{numbered};
ghost use Rattle.words_layout.specs.Limits.{IsIdentity};
ghost use Rattle.rings.specs.Brackets.{in_order};
ghost use Rattle.policy.specs.Known.{alias_brackets};
ghost use Rattle.config_text.specs.Valid.{IsValid};
ghost use Rattle.class_model.specs.Config.{classes};
ghost use Rattle.class_model.specs.Volume.{volume_of};
ghost use Rattle.machine.specs.Banks.{machine_of};
ghost use Rattle.volume_image.specs.Written.{record_bytes, written};
ghost use Rattle.volume_image.specs.Images.{room, IsMadeFor};
ghost use Rattle.loader.specs.Configuration.{configuration};
ghost use Rattle.end_volumes.specs.After.{mentor_of, is_root_cell, is_led, found, record_of, records_after, tree_of_words, listed};

use crate::cells::stored_at;
use crate::origins::{Origin, Origins, numbered};
use config_text::Config;
use machine::Machine;
use rings::Brackets;
use volume_image::Image;
use words_layout::{PlainWords, SERIAL_LIMIT, SegId};

/// How many identities there are. No path without a repeat is longer.
fn identity_count(config: &Config) -> u16
    ensures value { result ≡ most_serials * length config.now.table }
    ensures few { result ≤ 1024 }
{
    config.table.table_law();
    SERIAL_LIMIT as u16 * config.table.count() as u16
}

/// The volume of a class, 0 for none.
fn volume_of(config: &Config, class: u8) -> u8
    ensures { result ≡ volume_of (configuration config.now []) class }
{
    let pools = config.pools.as_slice();
    if (class as usize) < pools.len() {
        pools[class as usize].volume
    } else {
        0
    }
}

/// Whether the cell is the root's.
fn is_root_cell(class: u8, seg: SegId) -> bool
    ensures { result ≡ is_root_cell class seg }
{
    class == 0 && seg.mentor == 0 && seg.serial == 0
}

/// The mentor of a segment of the class, where the class has a volume and the entry where the segment stands says it.
fn mentor_of(config: &Config, origins: &Origins, class: u8, seg: SegId) -> Option<SegId>
    requires { IsIdentity seg }
    ensures value { result ≡ mentor_of (configuration config.now []) class (listed origins.now seg) }
    ensures range { IfSome result IsIdentity }
{
    let origin = origins.at(seg)?;
    if volume_of(config, class) != 0 && origin.alias.class == class {
        Some(origin.mentor)
    } else {
        None
    }
}

/// Whether a path of entries leads from the root to the cell, each segment on it but the root of a class with a volume.
fn is_led(config: &Config, origins: &Origins, class: u8, seg: SegId) -> bool
    requires { IsIdentity seg }
    ensures { result ≡ is_led (configuration config.now []) (listed origins.now) (64 * length config.now.table) class seg }
{
    let mut above_class = class;
    let mut above = seg;
    for _entry in 0..identity_count(config) {
        if is_root_cell(above_class, above) {
            return true;
        }
        match mentor_of(config, origins, above_class, above) {
            Some(mentor) => {
                above_class = above.mentor;
                above = mentor;
            }
            None => return false,
        }
    }
    is_root_cell(above_class, above)
}

/// Where a segment stands, if it has a record in the volume.
fn found_at(config: &Config, origins: &Origins, volume: u8, seg: SegId) -> Option<Origin>
    requires volume { 1 ≤ volume }
    requires seg { IsIdentity seg }
    ensures value { result ≡ found (configuration config.now []) volume (listed origins.now) (64 * length config.now.table) seg }
    ensures class { IfSome result (λ o. o.alias.class < length config.now.pools) }
    ensures brackets { IfSome result (λ o. in_order (alias_brackets o.alias) ≡ true) }
{
    let origin = origins.at(seg)?;
    let class = origin.alias.class;
    if volume_of(config, class) == volume && is_led(config, origins, class, seg) {
        Some(origin)
    } else {
        None
    }
}

/// How many records the volume has.
fn count_of(config: &Config, origins: &Origins, volume: u8) -> u16
    requires { 1 ≤ volume }
    ensures { result ≡ length (filter_map (λ n. found (configuration config.now []) volume (listed origins.now) (64 * length config.now.table) (numbered n)) (below (64 * length config.now.table))) }
{
    let mut count = 0;
    for number in 0..identity_count(config) {
        if found_at(config, origins, volume, numbered(number)).is_some() {
            count += 1;
        }
    }
    count
}

/// Adds the record of a segment.
fn add_record(image: &mut Image, machine: &Machine<PlainWords>, seg: SegId, origin: &Origin)
    requires class { origin.now.alias.class < classes machine.now.shared }
    requires seg { IsIdentity seg }
    requires brackets { in_order (alias_brackets origin.now.alias) ≡ true }
    requires room { 523 ≤ image.old.spare }
    ensures bytes { image.new.bytes ≡ image.old.bytes ++ record_bytes (record_of (tree_of_words (machine_of machine.now)) seg origin.now) }
    ensures few { length image.new.bytes ≤ length image.old.bytes + 523 }
    ensures room { room image.old ≤ room image.new }
{
    let alias = origin.alias;
    let brackets = Brackets {
        r1: alias.r1,
        r2: alias.r2,
        r3: alias.r3,
    };
    let kept = stored_at(machine, alias.class, seg);
    image.add(
        seg,
        alias.class,
        brackets,
        alias.size,
        origin.mentor,
        origin.entry,
        kept,
    );
}

/// Adds the records of the volume, by identity.
fn add_records(
    image: &mut Image,
    machine: &Machine<PlainWords>,
    config: &Config,
    origins: &Origins,
    volume: u8,
)
    requires volume { 1 ≤ volume }
    requires classes { length config.now.pools ≡ classes machine.now.shared }
    requires room { length image.old.bytes + 523 * (64 * length config.now.table) ≤ room image.old }
    ensures bytes { image.new.bytes ≡ image.old.bytes ++ flat_map record_bytes (filter_map (λ n. option_map (record_of (tree_of_words (machine_of machine.now)) (numbered n)) (found (configuration config.now []) volume (listed origins.now) (64 * length config.now.table) (numbered n))) (below (64 * length config.now.table))) }
    ensures room { room image.old ≤ room image.new }
{
    for number in 0..identity_count(config) {
        let seg = numbered(number);
        if let Some(origin) = found_at(config, origins, volume, seg) {
            add_record(image, machine, seg, &origin);
        }
    }
}

/// Puts the volume of that number after the run into the image, which was made for the table: the spelling in format 2 of
/// its records, by identity. It takes no memory.
pub fn volume_after(machine: &Machine<PlainWords>, config: &Config, volume: u8, image: &mut Image)
    requires valid { IsValid config.now }
    requires table { machine.now.shared.table ≡ config.now.table }
    requires volume { 1 ≤ volume }
    requires made { IsMadeFor config.now.table image.old }
    ensures bytes { image.new.bytes ≡ written config.now.table (records_after (configuration config.now []) volume (tree_of_words (machine_of machine.now))) }
    ensures room { IsMadeFor config.now.table image.new }
{
    let origins = Origins::of(machine);
    let count = count_of(config, &origins, volume);
    image.start(&config.table, count);
    add_records(image, machine, config, &origins, volume);
}
