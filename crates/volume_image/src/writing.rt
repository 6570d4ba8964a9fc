//! Writing a volume, in format 2.

ghost use Rattle.std.specs.Prelude.{◌≡◌, ◌<◌, ◌^◌, ◌++◌, ◌∷◌, [], length, map, option_map, IfOk, Result, Ok};
ghost use Rattle.std.specs.Int.{w16, w64, to_be_bytes};
ghost use Rattle.std.specs.List.{flat_map};
ghost use Rattle.labels.specs.Label.{class_at};
ghost use Rattle.volume_image.specs.declared.head.Format.TheVariants.{Two};
ghost use Rattle.volume_image.specs.Valid.{IsVolume};
ghost use Rattle.volume_image.specs.Written.{class_bytes, kept_bytes, record_bytes, start, header, front, written};
ghost use Rattle.volume_image.specs.Volumes.{Spells};
ghost use Rattle.volume_image.specs.Puts.{Puts};

use crate::head::MAGIC;
use crate::records::{SegRecord, Volume};
use byteorder::{BigEndian, ByteOrder};
use labels::{ClassTable, Label};
use rings::Brackets;
use std::alloc::{AllocError, Global};
use words_layout::SegId;

/// Adds the bytes.
fn put(out: &mut Vec<u8>, bytes: &[u8]) -> Result<(), AllocError>
    ensures { Puts out.old out.new result bytes.now }
{
    out.extend_from_slice(bytes)
}

/// Adds a word, its high byte first.
#[tactic(auto, using(crate::proofs::BigEndian::numbers))]
fn put_word(out: &mut Vec<u8>, word: u64) -> Result<(), AllocError>
    ensures { Puts out.old out.new result (to_be_bytes w64 word) }
{
    let mut bytes = [0; 8];
    BigEndian::write_u64(&mut bytes, word);
    put(out, &bytes)
}

/// Adds the words.
fn put_words(out: &mut Vec<u8>, words: &[u64]) -> Result<(), AllocError>
    ensures { Puts out.old out.new result (flat_map (to_be_bytes w64) words.now) }
{
    for word in words {
        put_word(out, *word)?;
    }
    Ok(())
}

/// Adds whether words were kept, and the words.
#[tactic(auto, using(crate::proofs::Putting::putting))]
fn put_kept(out: &mut Vec<u8>, kept: Option<&[u64]>) -> Result<(), AllocError>
    ensures { Puts out.old out.new result (kept_bytes (option_map (λ w. w.now) kept.entry)) }
{
    match kept {
        None => put(out, &[0]),
        Some(words) => {
            put(out, &[1])?;
            put_words(out, words)
        }
    }
}

/// What a record says of its segment, but for its words.
#[derive(Clone, Copy)]
pub struct Fields {
    pub seg: SegId,
    pub class: u8,
    pub brackets: Brackets,
    pub size: u8,
    pub mentor: SegId,
    pub entry: u8,
}

/// Adds a record.
#[tactic(auto, using(crate::proofs::Putting::putting), unfolding(crate::specs::Written::record_bytes))]
pub fn put_fields(out: &mut Vec<u8>, fields: Fields, kept: Option<&[u64]>) -> Result<(), AllocError>
    ensures { Puts out.old out.new result (record_bytes (record { seg = fields.seg; class = fields.class; brackets = fields.brackets; size = fields.size; mentor = fields.mentor; entry = fields.entry; kept = option_map (λ w. w.now) kept.entry })) }
{
    let Fields {
        seg,
        class,
        brackets,
        size,
        mentor,
        entry,
    } = fields;
    put(out, &[seg.mentor, seg.serial, class])?;
    put(out, &[brackets.r1, brackets.r2, brackets.r3, size])?;
    put(out, &[mentor.mentor, mentor.serial, entry])?;
    put_kept(out, kept)
}

/// Adds a record.
fn put_record(out: &mut Vec<u8>, segment: &SegRecord) -> Result<(), AllocError>
    ensures { Puts out.old out.new result (record_bytes segment.now) }
{
    let fields = Fields {
        seg: segment.seg,
        class: segment.class,
        brackets: segment.brackets,
        size: segment.size,
        mentor: segment.mentor,
        entry: segment.entry,
    };
    match &segment.kept {
        None => put_fields(out, fields, None),
        Some(words) => put_fields(out, fields, Some(words.as_slice())),
    }
}

/// Adds the records.
fn put_records(out: &mut Vec<u8>, records: &[SegRecord]) -> Result<(), AllocError>
    ensures { Puts out.old out.new result (flat_map record_bytes records.now) }
{
    for index in 0..records.len() {
        put_record(out, &records[index])?;
    }
    Ok(())
}

/// Adds a name with its length, and a label.
#[tactic(auto, using(crate::proofs::Putting::putting))]
fn put_entry(out: &mut Vec<u8>, name: &[u8], label: &Label) -> Result<(), AllocError>
    requires { length name.now < 256 }
    ensures { Puts out.old out.new result (class_bytes Two (record { name = name.now; label = label.now })) }
{
    put(out, &[name.len() as u8])?;
    put(out, name)?;
    put(out, &label.to_bytes())
}

/// Adds a class.
fn put_class(out: &mut Vec<u8>, table: &ClassTable, class: u8) -> Result<(), AllocError>
    requires { class < length table.now }
    ensures { Puts out.old out.new result (class_bytes Two (class_at table.now class)) }
{
    table.name_law(class);
    put_entry(out, table.name(class).as_bytes(), table.label(class))
}

/// Adds the classes.
fn put_classes(out: &mut Vec<u8>, table: &ClassTable) -> Result<(), AllocError>
    ensures { Puts out.old out.new result (flat_map (class_bytes Two) table.now) }
{
    for class in 0..table.count() {
        put_class(out, table, class)?;
    }
    Ok(())
}

/// Adds all that stands before the classes.
#[tactic(auto, using(crate::proofs::Putting::putting))]
fn put_start(out: &mut Vec<u8>, table: &ClassTable) -> Result<(), AllocError>
    ensures { Puts out.old out.new result (start Two table.now) }
{
    put(out, MAGIC)?;
    put(out, &[2, 0, table.count()])
}

/// Adds the number of records, its high byte first.
#[tactic(auto, using(crate::proofs::BigEndian::numbers))]
fn put_count(out: &mut Vec<u8>, count: u16) -> Result<(), AllocError>
    ensures { Puts out.old out.new result (to_be_bytes w16 count) }
{
    let mut bytes = [0; 2];
    BigEndian::write_u16(&mut bytes, count);
    put(out, &bytes)
}

/// Adds all that stands before the number of records.
#[tactic(auto, using(crate::proofs::Putting::putting), unfolding(crate::specs::Written::header))]
fn put_header(out: &mut Vec<u8>, table: &ClassTable) -> Result<(), AllocError>
    ensures { Puts out.old out.new result (header Two table.now) }
{
    put_start(out, table)?;
    put_classes(out, table)
}

/// Adds all that stands before the first record.
#[tactic(auto, using(crate::proofs::Putting::putting), unfolding(crate::specs::Written::front))]
pub fn put_front(out: &mut Vec<u8>, table: &ClassTable, count: u16) -> Result<(), AllocError>
    ensures { Puts out.old out.new result (front table.now count) }
{
    put_header(out, table)?;
    put_count(out, count)
}

/// The one spelling of the volume in format 2.
pub fn write_volume(
    alloc: Global,
    volume: &Volume,
    table: &ClassTable,
) -> Result<Vec<u8>, AllocError>
    requires { IsVolume table.now volume.now }
    ensures written { IfOk result (λ v. v.items ≡ written table.now volume.now) }
    ensures spells { IfOk result (λ v. Spells table.now v.items volume.now) }
{
    table.table_law();
    let mut out = Vec::new(alloc);
    put_front(&mut out, table, volume.list().len() as u16)?;
    put_records(&mut out, volume.list())?;
    Ok(out)
}
