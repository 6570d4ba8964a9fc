//! The fields of a record, and the records.

ghost use Rattle.std.specs.Prelude.{◌≡◌, ◌<◌, length, true, IfOk};
ghost use Rattle.std.specs.Bool.{OnTrue};
ghost use Rattle.std.specs.Prelude.{option_map};
ghost use Rattle.words_layout.specs.Segments.{seg};
ghost use Rattle.volume_image.specs.Valid.{serials as spec_serials, is_class, is_identity, is_above, may_stand};
ghost use Rattle.volume_image.specs.Steps.{Gives};
ghost use Rattle.volume_image.specs.Fields.{id_at, class_number_at, brackets_at, size_at, mentor_at, entry_at, words_at, kept_at, record_at, records_at};
ghost use Rattle.class_model.specs.Valid.{is_root};

use crate::fault::{Code, SHORT, Stop, fault};
use crate::head::Format;
use crate::parts::{byte_of, identity_of, word_of};
use crate::records::SegRecord;
use labels::ClassTable;
use rings::Brackets;
use std::alloc::Global;
use words_layout::SegId;

/// The root's identity, which is below every other.
pub const ROOT: SegId = SegId {
    mentor: 0,
    serial: 0,
};

fn serials(format: Format) -> u8
    ensures { result ≡ spec_serials format }
{
    match format {
        Format::One => 32,
        Format::Two => 64,
    }
}

fn is_class(table: &ClassTable, class: u8) -> bool
    ensures computed { result ≡ is_class table.now class }
    ensures below { OnTrue result (class < length table.now) }
{
    class < table.count()
}

/// Whether its class is one of the table and its serial one of the format.
fn is_identity(format: Format, table: &ClassTable, id: SegId) -> bool
    ensures computed { result ≡ is_identity format table.now id }
    ensures below { OnTrue result (id.mentor < length table.now) }
{
    is_class(table, id.mentor) && id.serial < serials(format)
}

fn is_root(id: SegId) -> bool
    ensures { result ≡ is_root id }
{
    id.mentor == 0 && id.serial == 0
}

fn is_above(before: SegId, id: SegId) -> bool
    ensures { result ≡ is_above before id }
{
    before.mentor < id.mentor || before.mentor == id.mentor && before.serial < id.serial
}

/// Whether a segment of this identity may stand under that mentor.
fn may_stand(table: &ClassTable, id: SegId, mentor: SegId) -> bool
    requires id { id.mentor < length table.now }
    requires mentor { mentor.mentor < length table.now }
    ensures { result ≡ may_stand table.now id mentor }
{
    table.below(mentor.mentor, id.mentor)
        && (mentor.mentor != id.mentor || mentor.serial < id.serial)
}

#[tactic(auto, unfolding(crate::specs::Fields::id_at))]
fn id_of<'a>(
    format: Format,
    table: &ClassTable,
    before: SegId,
    bytes: &'a [u8],
) -> Result<(SegId, &'a [u8]), Stop>
    ensures read { Gives (λ x. (x.0, x.1.now)) result (id_at format table.now before bytes.now) }
    ensures class { IfOk result (λ x. x.0.mentor < length table.now) }
{
    let (id, rest) = identity_of(bytes)?;
    if !is_identity(format, table, id) {
        return Err(fault(bytes, Code::Range));
    }
    if is_root(id) {
        return Err(fault(bytes, Code::Range));
    }
    if !is_above(before, id) {
        return Err(fault(bytes, Code::Order));
    }
    Ok((id, rest))
}

#[tactic(auto, unfolding(crate::specs::Fields::class_number_at))]
fn class_number_of<'a>(
    table: &ClassTable,
    mentor: u8,
    bytes: &'a [u8],
) -> Result<(u8, &'a [u8]), Stop>
    requires { mentor < length table.now }
    ensures { Gives (λ x. (x.0, x.1.now)) result (class_number_at table.now mentor bytes.now) }
{
    let (class, rest) = byte_of(bytes)?;
    if !is_class(table, class) {
        return Err(fault(bytes, Code::Range));
    }
    if !table.below(mentor, class) {
        return Err(fault(bytes, Code::Class));
    }
    Ok((class, rest))
}

#[tactic(auto, unfolding(crate::specs::Fields::brackets_at))]
fn brackets_of(bytes: &[u8]) -> Result<(Brackets, &[u8]), Stop>
    ensures { Gives (λ x. (x.0, x.1.now)) result (brackets_at bytes.now) }
{
    let [r1, r2, r3, rest @ ..] = bytes else {
        return Err(SHORT);
    };
    match Brackets::new(*r1, *r2, *r3) {
        Some(brackets) => Ok((brackets, rest)),
        None => Err(fault(bytes, Code::Range)),
    }
}

#[tactic(auto, unfolding(crate::specs::Fields::size_at))]
fn size_of(bytes: &[u8]) -> Result<(u8, &[u8]), Stop>
    ensures { Gives (λ x. (x.0, x.1.now)) result (size_at bytes.now) }
{
    let (size, rest) = byte_of(bytes)?;
    if size < 1 || size > 64 {
        return Err(fault(bytes, Code::Range));
    }
    Ok((size, rest))
}

#[tactic(auto, unfolding(crate::specs::Fields::mentor_at))]
fn mentor_of<'a>(
    format: Format,
    table: &ClassTable,
    id: SegId,
    bytes: &'a [u8],
) -> Result<(SegId, &'a [u8]), Stop>
    requires { id.mentor < length table.now }
    ensures { Gives (λ x. (x.0, x.1.now)) result (mentor_at format table.now id bytes.now) }
{
    let (mentor, rest) = identity_of(bytes)?;
    if !is_identity(format, table, mentor) {
        return Err(fault(bytes, Code::Range));
    }
    if !may_stand(table, id, mentor) {
        return Err(fault(bytes, Code::Mentor));
    }
    Ok((mentor, rest))
}

#[tactic(auto, unfolding(crate::specs::Fields::entry_at))]
fn entry_of(bytes: &[u8]) -> Result<(u8, &[u8]), Stop>
    ensures { Gives (λ x. (x.0, x.1.now)) result (entry_at bytes.now) }
{
    let (entry, rest) = byte_of(bytes)?;
    if entry >= 8 {
        return Err(fault(bytes, Code::Range));
    }
    Ok((entry, rest))
}

/// So many words.
fn words_of(alloc: Global, count: u8, bytes: &[u8]) -> Result<(Vec<u64>, &[u8]), Stop>
    ensures { Gives (λ x. (x.0.items, x.1.now)) result (words_at count bytes.now) }
{
    let mut words = Vec::new(alloc);
    let mut rest = bytes;
    for _ in 0..count {
        let (word, after) = word_of(rest)?;
        words.push(word)?;
        rest = after;
    }
    Ok((words, rest))
}

/// The words of a segment of this size, if they were kept.
#[tactic(auto, unfolding(crate::specs::Fields::kept_at))]
fn kept_of(alloc: Global, size: u8, bytes: &[u8]) -> Result<(Option<Vec<u64>>, &[u8]), Stop>
    ensures { Gives (λ x. (option_map (λ w. w.items) x.0, x.1.now)) result (kept_at size bytes.now) }
{
    let (flag, rest) = byte_of(bytes)?;
    match flag {
        0 => Ok((None, rest)),
        1 => {
            let (words, rest) = words_of(alloc, size, rest)?;
            Ok((Some(words), rest))
        }
        _ => Err(fault(bytes, Code::Range)),
    }
}

#[tactic(auto, unfolding(crate::specs::Fields::record_at))]
fn record_of<'a>(
    alloc: Global,
    format: Format,
    table: &ClassTable,
    before: SegId,
    bytes: &'a [u8],
) -> Result<(SegRecord, &'a [u8]), Stop>
    ensures { Gives (λ x. (x.0, x.1.now)) result (record_at format table.now before bytes.now) }
{
    let (seg, rest) = id_of(format, table, before, bytes)?;
    let (class, rest) = class_number_of(table, seg.mentor, rest)?;
    let (brackets, rest) = match brackets_of(rest) {
        Ok((brackets, rest)) => (brackets, rest),
        Err(stop) => return Err(stop),
    };
    let (size, rest) = size_of(rest)?;
    let (mentor, rest) = mentor_of(format, table, seg, rest)?;
    let (entry, rest) = entry_of(rest)?;
    let (kept, rest) = kept_of(alloc, size, rest)?;
    let record = SegRecord {
        seg,
        class,
        brackets,
        size,
        mentor,
        entry,
        kept,
    };
    Ok((record, rest))
}

fn seg_of(segment: &SegRecord) -> SegId
    ensures { result ≡ segment.now.seg }
{
    segment.seg
}

/// So many records.
pub fn records_of<'a>(
    alloc: Global,
    format: Format,
    table: &ClassTable,
    count: u16,
    bytes: &'a [u8],
) -> Result<(Vec<SegRecord>, &'a [u8]), Stop>
    ensures { Gives (λ x. (x.0.items, x.1.now)) result (records_at format table.now (seg 0 0) count bytes.now) }
{
    let mut records = Vec::new(alloc);
    let mut before = ROOT;
    let mut rest = bytes;
    for _ in 0..count {
        let (record, after) = record_of(alloc, format, table, before, rest)?;
        before = seg_of(&record);
        records.push(record)?;
        rest = after;
    }
    Ok((records, rest))
}
