//! What is wrong with a line, and what it says, without what the lines so far say.

ghost use Rattle.std.specs.Prelude.{◌≡◌, ◌≤◌, ◌<◌, ◌∷◌, ◌||◌, ◌&&◌, ◌==◌, ◌++◌, [], IfOk, OnOk, MatchOption, length, count_by, map, true, false, Some};
ghost use Rattle.std.specs.Result.{result_err};
ghost use Rattle.std.specs.Str.{bytes_eq};
ghost use Rattle.text_lines.specs.Faults.{first_code};
ghost use Rattle.text_lines.specs.Lines.{views};
ghost use Rattle.text_lines.specs.Number.{value_of};
ghost use Rattle.labels.specs.Label.{at_or_below, label_of};
ghost use Rattle.labels.specs.Table.{entry_of};
ghost use Rattle.labels.specs.Reading.{label_of_text};
ghost use Rattle.rings.specs.Brackets.{in_order};
ghost use Rattle.config_text.specs.Rules as spec;
ghost use Rattle.config_text.specs.Views.{class_view};

use crate::config::{Item, Pool, ProcessLine};
use crate::fault::Code;
use crate::limits::{MAX_CYCLE, MAX_FRAMES, MAX_PAGES, MAX_RING, MAX_VOLUMES};
use crate::words::{
    ClassWords, byte, event_item, has_misspelt, has_past, is_misspelt, is_outside, label,
    name_text, value,
};
use arrayvec::ArrayString;
use labels::Label;
use rings::Brackets;
use std::alloc::{AllocError, Global};
use text_lines::{is_name, is_text};

/// What is wrong with the header's first line.
pub fn header_fault(words: &[&[u8]]) -> Result<(), Code>
    ensures { first_code (spec.header_tests (views words.now)) ≡ result_err result }
{
    let [keyword, version] = words else {
        return Err(Code::Form);
    };
    if !is_text(keyword, b"gemkernel") {
        return Err(Code::Form);
    }
    if !is_text(version, b"1") {
        return Err(Code::Form);
    }
    Ok(())
}

/// The number of a line of a keyword and a number from low to high.
pub fn number_in(words: &[&[u8]], keyword: &[u8], low: u64, high: u64) -> Result<u64, Code>
    ensures code { first_code (spec.number_tests keyword.now low high (views words.now)) ≡ result_err result }
    ensures number { IfOk result (λ n. (n ≡ spec.number_in (views words.now)) × (low ≤ n) × (n ≤ high)) }
{
    let [first, number] = words else {
        return Err(Code::Form);
    };
    if !is_text(first, keyword) {
        return Err(Code::Form);
    }
    if is_misspelt(number) {
        return Err(Code::Number);
    }
    let number = value(number);
    if is_outside(low, high, number) {
        return Err(Code::Range);
    }
    Ok(number)
}

/// What is wrong with the fixed words of a class line.
#[tactic(auto, unfolding(crate::specs::Rules::fixed_tests))]
fn fixed_fault(line: &ClassWords) -> Result<(), Code>
    ensures { first_code (spec.fixed_tests line.now.keyword.now line.now.frames_word.now line.now.pages_word.now line.now.volume_word.now) ≡ result_err result }
{
    if !is_text(line.keyword, b"class") {
        return Err(Code::Form);
    }
    if !is_text(line.frames_word, b"frames") {
        return Err(Code::Form);
    }
    if !is_text(line.pages_word, b"pages") {
        return Err(Code::Form);
    }
    if !is_text(line.volume_word, b"volume") {
        return Err(Code::Form);
    }
    Ok(())
}

/// The pool of a class line.
#[tactic(auto, unfolding(crate::specs::Rules::pool_tests))]
fn pool_of(frames: &[u8], pages: &[u8], volume: &[u8]) -> Result<Pool, Code>
    ensures code { first_code (spec.pool_tests frames.now pages.now volume.now) ≡ result_err result }
    ensures pool { IfOk result (λ p. p ≡ spec.pool_in frames.now pages.now volume.now) }
{
    if is_misspelt(frames) || is_misspelt(pages) || is_misspelt(volume) {
        return Err(Code::Number);
    }
    let (frames, pages, volume) = (value(frames), value(pages), value(volume));
    if frames > MAX_FRAMES || pages > MAX_PAGES || volume > MAX_VOLUMES {
        return Err(Code::Range);
    }
    Ok(Pool {
        frames: frames as u8,
        pages: pages as u8,
        volume: volume as u8,
    })
}

/// The pool of a class line, where its fixed words and its numbers are right.
#[tactic(auto, using(crate::proofs::ClassLine::groups))]
pub fn pool_in(line: &ClassWords) -> Result<Pool, Code>
    ensures code { first_code (spec.front_tests (class_view line.now)) ≡ result_err result }
    ensures pool { IfOk result (λ p. p ≡ spec.pool_in line.now.frames.now line.now.pages.now line.now.volume.now) }
{
    match fixed_fault(line) {
        Ok(()) => pool_of(line.frames, line.pages, line.volume),
        Err(code) => Err(code),
    }
}

/// Whether the labels are equal.
fn same_label(a: &Label, b: &Label) -> bool
    ensures { result ≡ spec.same_label a.now b.now }
{
    a.secrecy_level == b.secrecy_level
        && a.secrecy_cats == b.secrecy_cats
        && a.integrity_level == b.integrity_level
        && a.integrity_cats == b.integrity_cats
}

/// Whether the class has the name or the label.
fn is_same(entry: &(ArrayString<16>, Label), name: &[u8], label: &Label) -> bool
    ensures { result ≡ (bytes_eq entry.now.0.bytes name.now || spec.same_label entry.now.1 label.now) }
{
    is_text(entry.0.as_str().as_bytes(), name) || same_label(&entry.1, label)
}

/// Whether an earlier class has the name or the label.
pub fn stood_before(entries: &[(ArrayString<16>, Label)], name: &[u8], label: &Label) -> bool
    ensures { result ≡ spec.stood_before (map entry_of entries.now) name.now label.now }
{
    entries.iter().any(|entry| is_same(entry, name, label))
}

/// Whether the label doesn't dominate that of class 0.
pub fn is_low(entries: &[(ArrayString<16>, Label)], label: &Label) -> bool
    ensures { result ≡ spec.is_low (map entry_of entries.now) label.now }
{
    match entries {
        [] => false,
        [first, ..] => !label.dominates(&first.1),
    }
}

/// The class of this name and label, behind these classes.
#[tactic(auto, unfolding(crate::specs::Rules::entry_tests))]
pub fn new_entry(
    entries: &[(ArrayString<16>, Label)],
    name: &[u8],
    text: &[u8],
) -> Result<(ArrayString<16>, Label), Code>
    ensures code { first_code (spec.entry_tests (map entry_of entries.now) name.now (label_of_text text.now)) ≡ result_err result }
    ensures entry { IfOk result (λ e. (label_of_text text.now ≡ Some e.1) × (e.0.bytes ≡ name.now)) }
{
    let Some(label) = label(text) else {
        return Err(Code::Label);
    };
    if !is_name(name) {
        return Err(Code::Name);
    }
    if stood_before(entries, name, &label) {
        return Err(Code::Twice);
    }
    if is_low(entries, &label) {
        return Err(Code::Low);
    }
    Ok((name_text(name), label))
}

/// What is wrong with a line of a cycle, where there are so many classes.
pub fn cycle_fault(keyword: &[u8], words: &[&[u8]], classes: u64) -> Result<(), Code>
    ensures { first_code (spec.cycle_line_tests classes keyword.now (views words.now)) ≡ result_err result }
{
    if !is_text(keyword, b"cycle") {
        return Err(Code::Form);
    }
    if is_outside(1, MAX_CYCLE, words.len() as u64) {
        return Err(Code::Form);
    }
    if has_misspelt(words) {
        return Err(Code::Number);
    }
    if has_past(words, classes) {
        return Err(Code::Range);
    }
    Ok(())
}

/// The label of a class of the entries.
fn label_at(entries: &[(ArrayString<16>, Label)], class: u8) -> &Label
    requires { class < length entries.now }
    ensures { result.now ≡ label_of (map entry_of entries.now) class }
{
    &entries[usize::from(class)].1
}

/// Whether c is at or below d, where both are classes of the entries.
pub fn is_below(entries: &[(ArrayString<16>, Label)], c: u8, d: u8) -> bool
    requires c { c < length entries.now }
    requires d { d < length entries.now }
    ensures { result ≡ at_or_below (map entry_of entries.now) c d }
{
    label_at(entries, d).dominates(label_at(entries, c))
}

/// The brackets of these words. None where they aren't in order.
pub fn brackets(r1: &[u8], r2: &[u8], r3: &[u8]) -> Option<Brackets>
    ensures { MatchOption result (in_order (spec.brackets_in r1.now r2.now r3.now) ≡ false)
        (λ b. (b ≡ spec.brackets_in r1.now r2.now r3.now) × (in_order (spec.brackets_in r1.now r2.now r3.now) ≡ true)) }
{
    let (r1, r2, r3) = (value(r1), value(r2), value(r3));
    if r1 <= r2 && r2 <= r3 && r3 <= MAX_RING {
        return Some(Brackets {
            r1: r1 as u8,
            r2: r2 as u8,
            r3: r3 as u8,
        });
    }
    None
}

/// How many processes a processor has of a class.
pub fn count_of(lines: &[ProcessLine], processor: u8, class: u8) -> usize
    ensures { result ≡ count_by (λ x. x.processor == processor && x.class == class) lines.now }
{
    lines
        .iter()
        .filter(|line| line.processor == processor && line.class == class)
        .count()
}

/// The classes of these words.
#[tactic(auto, using(text_lines::proofs::Passing::passing))]
pub fn class_list(alloc: Global, words: &[&[u8]]) -> Result<Vec<u8>, AllocError>
    ensures { IfOk result (λ v. v.items ≡ map (λ w. spec.byte (value_of w)) (views words.now)) }
{
    let mut classes = Vec::new(alloc);
    for word in words {
        classes.push(byte(word))?;
    }
    Ok(classes)
}

/// Puts the items of event words behind the others.
#[tactic(auto, using(text_lines::proofs::Passing::passing))]
pub fn push_events(schedule: &mut Vec<Item>, words: &[&[u8]]) -> Result<(), AllocError>
    ensures { OnOk result (schedule.new.items ≡ schedule.old.items ++ map spec.event_item (views words.now)) }
{
    for word in words {
        schedule.push(event_item(word))?;
    }
    Ok(())
}
