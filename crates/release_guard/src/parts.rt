//! The words of an order's lines, without what the lines so far say.

ghost use Rattle.std.specs.Prelude.{◌≡◌, ◌||◌, ◌≤◌, IfOk, MatchOption, length, map, true, false, Some};
ghost use Rattle.std.specs.Result.{result_err};
ghost use Rattle.std.specs.Str.{bytes_eq};
ghost use Rattle.text_lines.specs.Faults.{first_code};
ghost use Rattle.text_lines.specs.Lines.{views};
ghost use Rattle.text_lines.specs.Name.{is_name as spec_is_name};
ghost use Rattle.text_lines.specs.Number.{misspelt, value_of};
ghost use Rattle.labels.specs.Reading.{label_of_text};
ghost use Rattle.labels.specs.Table.{entry_of};
ghost use Rattle.release_guard.specs.Rules as spec;

use crate::fault::Code;
use crate::order::Stage;
use arrayvec::ArrayString;
use config_text::{byte, is_low, is_misspelt, label, name_text, stood_before, value};
use labels::Label;
use text_lines::{is_name, is_text};
use words_layout::{SERIAL_LIMIT, SegId};

/// What is wrong with the first line.
pub fn header_fault(words: &[&[u8]]) -> Result<(), Code>
    ensures { first_code (spec.header_tests (views words.now)) ≡ result_err result }
{
    let [keyword, version] = words else {
        return Err(Code::Form);
    };
    if !is_text(keyword, b"gemrelease") {
        return Err(Code::Form);
    }
    if !is_text(version, b"1") {
        return Err(Code::Form);
    }
    Ok(())
}

/// The number of classes.
pub fn class_count(words: &[&[u8]]) -> Result<u8, Code>
    ensures code { first_code (spec.count_tests (views words.now)) ≡ result_err result }
    ensures number { IfOk result (λ n. n ≡ spec.count_in (views words.now)) }
{
    let [keyword, number] = words else {
        return Err(Code::Form);
    };
    if !is_text(keyword, b"classes") {
        return Err(Code::Form);
    }
    if is_misspelt(number) {
        return Err(Code::Number);
    }
    let number = value(number);
    if number < 1 || 16 < number {
        return Err(Code::Range);
    }
    Ok(number as u8)
}

/// The class of this name and label, behind these classes.
#[tactic(auto, unfolding(crate::specs::Rules::entry_tests))]
pub fn new_entry(
    entries: &[(ArrayString<16>, Label)],
    name: &[u8],
    text: &[u8],
) -> Result<(ArrayString<16>, Label), Code>
    ensures code { first_code (spec.entry_tests (map entry_of entries.now) name.now (label_of_text text.now)) ≡ result_err result }
    ensures entry { IfOk result (λ e. (label_of_text text.now ≡ Some e.1) × (e.0.bytes ≡ name.now)) }
{
    let Some(label) = label(text) else {
        return Err(Code::Label);
    };
    if !is_name(name) {
        return Err(Code::Name);
    }
    if stood_before(entries, name, &label) {
        return Err(Code::Twice);
    }
    if is_low(entries, &label) {
        return Err(Code::Low);
    }
    Ok((name_text(name), label))
}

/// The identity of these words. None where the class isn't below the number of classes, or the serial not below 64.
pub fn identity(class: &[u8], serial: &[u8], classes: u64) -> Option<SegId>
    ensures { MatchOption result (spec.is_past classes class.now serial.now ≡ true)
        (λ u. (spec.is_past classes class.now serial.now ≡ false) × (u ≡ spec.identity_in class.now serial.now)) }
{
    if value(class) >= classes {
        return None;
    }
    if value(serial) >= u64::from(SERIAL_LIMIT) {
        return None;
    }
    Some(SegId {
        mentor: byte(class),
        serial: byte(serial),
    })
}

/// Whether one of the four words spells no number below 2 ^ 64.
#[tactic(auto, unfolding(crate::specs::Rules::one_misspelt))]
pub fn one_misspelt(a: &[u8], b: &[u8], c: &[u8], d: &[u8]) -> bool
    ensures { result ≡ spec.one_misspelt a.now b.now c.now d.now }
{
    is_misspelt(a) || is_misspelt(b) || is_misspelt(c) || is_misspelt(d)
}

/// Which line comes after a class line, with this many still to come.
pub fn after_class(due: u8) -> Stage
    ensures { result ≡ spec.after_class due }
{
    if due == 0 {
        return Stage::Releases;
    }
    Stage::Classes
}
