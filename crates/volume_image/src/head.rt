//! What stands before the records: the format and the classes.

ghost use Rattle.std.specs.Prelude.{◌≡◌, ◌<◌, length, slice_index, nat_lt, ◌||◌};
ghost use Rattle.labels.specs.Label.{class_at};
ghost use Rattle.volume_image.specs.Valid.{has_room, is_high};
ghost use Rattle.volume_image.specs.Steps.{Gives};
ghost use Rattle.volume_image.specs.Fields.{magic_at, format_at, zero_at, classes_number_at, name_at, label_at, class_fields, classes_at, header_at};

use crate::fault::{Code, Stop, fault};
use crate::parts::{byte_of, front_of, is_same};
use labels::{ClassTable, Label, MAX_LEVEL};

/// How an image is laid out.
#[derive(Clone, Copy, Debug, PartialEq, Eq)]
pub enum Format {
    /// Labels alone, at most eight classes, and serials below 32. It is read.
    One,
    /// Names and labels, and serials below 64. It is read and written.
    Two,
}

/// The word that every image begins with.
pub const MAGIC: &[u8] = b"GEMVOL";

#[tactic(auto, unfolding(crate::specs::Fields::magic_at))]
fn magic_of(bytes: &[u8]) -> Result<&[u8], Stop>
    ensures { Gives (λ x. x.now) result (magic_at bytes.now) }
{
    let (magic, rest) = front_of(bytes, 6)?;
    if !is_same(magic, MAGIC) {
        return Err(fault(bytes, Code::Magic));
    }
    Ok(rest)
}

#[tactic(auto, unfolding(crate::specs::Fields::format_at))]
fn format_of(bytes: &[u8]) -> Result<(Format, &[u8]), Stop>
    ensures { Gives (λ x. (x.0, x.1.now)) result (format_at bytes.now) }
{
    let (byte, rest) = byte_of(bytes)?;
    match byte {
        1 => Ok((Format::One, rest)),
        2 => Ok((Format::Two, rest)),
        _ => Err(fault(bytes, Code::Format)),
    }
}

#[tactic(auto, unfolding(crate::specs::Fields::zero_at))]
fn zero_of(bytes: &[u8]) -> Result<&[u8], Stop>
    ensures { Gives (λ x. x.now) result (zero_at bytes.now) }
{
    let (byte, rest) = byte_of(bytes)?;
    if byte != 0 {
        return Err(fault(bytes, Code::Zero));
    }
    Ok(rest)
}

/// Whether the format has room for the classes of the table.
fn has_room(format: Format, table: &ClassTable) -> bool
    ensures { result ≡ has_room format table.now }
{
    match format {
        Format::One => table.count() <= 8,
        Format::Two => true,
    }
}

#[tactic(auto, unfolding(crate::specs::Fields::classes_number_at))]
fn classes_number_of<'a>(
    format: Format,
    table: &ClassTable,
    bytes: &'a [u8],
) -> Result<&'a [u8], Stop>
    ensures { Gives (λ x. x.now) result (classes_number_at format table.now bytes.now) }
{
    let (number, rest) = byte_of(bytes)?;
    if number != table.count() {
        return Err(fault(bytes, Code::Classes));
    }
    if !has_room(format, table) {
        return Err(fault(bytes, Code::Classes));
    }
    Ok(rest)
}

#[tactic(auto, unfolding(crate::specs::Fields::name_at))]
fn name_of<'a>(name: &[u8], bytes: &'a [u8]) -> Result<&'a [u8], Stop>
    ensures { Gives (λ x. x.now) result (name_at name.now bytes.now) }
{
    let (number, after) = byte_of(bytes)?;
    if usize::from(number) != name.len() {
        return Err(fault(bytes, Code::Name));
    }
    let (text, rest) = front_of(after, name.len())?;
    if !is_same(text, name) {
        return Err(fault(after, Code::Name));
    }
    Ok(rest)
}

/// Whether one of the levels of a label's bytes is too high.
fn is_high(bytes: &[u8]) -> bool
    requires { 5 < length bytes.now }
    ensures { result ≡ is_high bytes.now }
{
    bytes[0] > MAX_LEVEL || bytes[5] > MAX_LEVEL
}

#[tactic(auto, unfolding(crate::specs::Fields::label_at))]
fn label_of<'a>(label: &Label, bytes: &'a [u8]) -> Result<&'a [u8], Stop>
    ensures { Gives (λ x. x.now) result (label_at label.now bytes.now) }
{
    let (front, rest) = front_of(bytes, 10)?;
    if is_high(front) {
        return Err(fault(bytes, Code::Level));
    }
    if !is_same(front, &label.to_bytes()) {
        return Err(fault(bytes, Code::Label));
    }
    Ok(rest)
}

#[tactic(auto, unfolding(crate::specs::Fields::class_fields))]
fn class_of<'a>(
    format: Format,
    table: &ClassTable,
    class: u8,
    bytes: &'a [u8],
) -> Result<&'a [u8], Stop>
    requires { class < length table.now }
    ensures { Gives (λ x. x.now) result (class_fields format (class_at table.now class) bytes.now) }
{
    match format {
        Format::One => label_of(table.label(class), bytes),
        Format::Two => {
            let rest = name_of(table.name(class).as_bytes(), bytes)?;
            label_of(table.label(class), rest)
        }
    }
}

fn classes_of<'a>(format: Format, table: &ClassTable, bytes: &'a [u8]) -> Result<&'a [u8], Stop>
    ensures { Gives (λ x. x.now) result (classes_at format table.now bytes.now) }
{
    let mut rest = bytes;
    for class in 0..table.count() {
        rest = class_of(format, table, class, rest)?;
    }
    Ok(rest)
}

/// The format, and what follows the classes.
#[tactic(auto, unfolding(crate::specs::Fields::header_at))]
pub fn header_of<'a>(table: &ClassTable, bytes: &'a [u8]) -> Result<(Format, &'a [u8]), Stop>
    ensures { Gives (λ x. (x.0, x.1.now)) result (header_at table.now bytes.now) }
{
    let rest = magic_of(bytes)?;
    let (format, rest) = format_of(rest)?;
    let rest = zero_of(rest)?;
    let rest = classes_number_of(format, table, rest)?;
    let rest = classes_of(format, table, rest)?;
    Ok((format, rest))
}
