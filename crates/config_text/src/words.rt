//! The words of a configuration's lines.

ghost use Rattle.std.specs.Prelude.{◌≡◌, ◌∷◌, ◌≤◌, ◌==◌, ◌||◌, [], nat_lt, option_map, IfSome, IfNone, MatchOption, true, false, List, ◌+◌, ◌<◌};
ghost use Rattle.std.specs.List.{list_any, sum_by};
ghost use Rattle.text_lines.specs.Lines.{views};
ghost use Rattle.text_lines.specs.Name.{is_name as spec_is_name};
ghost use Rattle.text_lines.specs.Number.{misspelt, value_of};
ghost use Rattle.labels.specs.Reading.{label_of_text};
ghost use Rattle.config_text.specs.Rules as spec;
ghost use Rattle.words_layout.specs.Sizes.{max_events};
ghost use Rattle.config_text.specs.Views.{class_view, event_view};
ghost use Rattle.config_text.specs.Place.{Place};
ghost use Rattle.labels.specs.Label.{ClassEntry};

use crate::config::Item;
use crate::limits::MAX_EVENTS;
use arrayvec::ArrayString;
use labels::Label;
use text_lines::{number, split_once};

/// The number that the word spells, 0 where it is misspelt.
pub fn value(word: &[u8]) -> u64
    ensures { result ≡ value_of word.now }
{
    number(word).unwrap_or(0)
}

/// The class, script or processor of this number. A line whose number is past what there is has a code.
pub fn byte(word: &[u8]) -> u8
    ensures { result ≡ spec.byte (value_of word.now) }
{
    value(word).min(255) as u8
}

/// Whether the word spells no number below 2 ^ 64.
pub fn is_misspelt(word: &[u8]) -> bool
    ensures { result ≡ misspelt word.now }
{
    number(word).is_err()
}

/// Whether one of the words spells no number below 2 ^ 64.
pub fn has_misspelt(words: &[&[u8]]) -> bool
    ensures { result ≡ list_any misspelt (views words.now) }
{
    words.iter().any(|word| is_misspelt(word))
}

/// Whether one of the words is no number below the limit.
pub fn has_past(words: &[&[u8]], limit: u64) -> bool
    ensures { result ≡ spec.has_past limit (views words.now) }
{
    words.iter().any(|word| value(word) >= limit)
}

/// Whether the number is below the first one or above the second.
pub fn is_outside(low: u64, high: u64, number: u64) -> bool
    ensures { result ≡ spec.is_outside low high number }
{
    number < low || high < number
}

/// The label that the word spells.
pub fn label(word: &[u8]) -> Option<Label>
    ensures { result ≡ label_of_text word.now }
{
    Label::parse_bytes(word).ok()
}

/// The name as a text of its own.
#[tactic(auto, using(crate::proofs::NameBytes::names))]
pub fn name_text(word: &[u8]) -> ArrayString<16>
    requires { spec_is_name word.now ≡ true }
    ensures { result.bytes ≡ word.now }
{
    let mut text = ArrayString::new();
    for byte in word {
        text.push(char::from(*byte));
    }
    text
}

/// The words of a class line.
#[derive(Clone, Copy)]
pub struct ClassWords<'a> {
    pub keyword: &'a [u8],
    pub name: &'a [u8],
    pub label: &'a [u8],
    pub frames_word: &'a [u8],
    pub frames: &'a [u8],
    pub pages_word: &'a [u8],
    pub pages: &'a [u8],
    pub volume_word: &'a [u8],
    pub volume: &'a [u8],
}

/// The words of a class line by name. None where they are more or fewer.
pub fn class_words<'a>(words: &[&'a [u8]]) -> Option<ClassWords<'a>>
    ensures some { IfSome result (λ w. (t : List ClassEntry) → spec.class_tests t (views words.now) ≡ spec.class_text_tests t (class_view w)) }
    ensures next { IfSome result (λ w. (p : Place) → spec.class_next p (views words.now) ≡ spec.with_class p w.name.now (label_of_text w.label.now) (spec.pool_in w.frames.now w.pages.now w.volume.now)) }
    ensures none { IfNone result ((t : List ClassEntry) → spec.class_tests t (views words.now) ≡ spec.no_form) }
{
    let [
        keyword,
        name,
        label,
        frames_word,
        frames,
        pages_word,
        pages,
        volume_word,
        volume,
    ] = words
    else {
        return None;
    };
    Some(ClassWords {
        keyword,
        name,
        label,
        frames_word,
        frames,
        pages_word,
        pages,
        volume_word,
        volume,
    })
}

/// Whether the byte is in the word.
fn has_byte(word: &[u8], wanted: u8) -> bool
    ensures { result ≡ spec.has_byte wanted word.now }
{
    word.iter().any(|byte| *byte == wanted)
}

/// The parts of an event word `P.C*N`.
#[derive(Clone, Copy)]
pub struct EventParts<'a> {
    pub processor: &'a [u8],
    pub class: &'a [u8],
    pub count: &'a [u8],
}

/// The parts of a word with one `.` and behind it one `*`.
pub fn event_parts(word: &[u8]) -> Option<EventParts<'_>>
    ensures { option_map event_view result ≡ spec.event_parts word.now }
{
    let (processor, rest) = split_once(word, b'.')?;
    let (class, count) = split_once(rest, b'*')?;
    if has_byte(rest, b'.') || has_byte(count, b'*') {
        return None;
    }
    Some(EventParts {
        processor,
        class,
        count,
    })
}

/// Whether the word isn't `P.C*N`.
fn is_no_event(word: &[u8]) -> bool
    ensures { result ≡ spec.is_no_event word.now }
{
    event_parts(word).is_none()
}

/// Whether one of the numbers of an event word is misspelt.
fn is_misspelt_event(word: &[u8]) -> bool
    ensures { result ≡ spec.is_misspelt_event word.now }
{
    match event_parts(word) {
        Some(parts) => {
            is_misspelt(parts.processor) || is_misspelt(parts.class) || is_misspelt(parts.count)
        }
        None => false,
    }
}

/// Whether one of the numbers of an event word is out of its range.
fn is_outside_event(word: &[u8], processors: u64, classes: u64) -> bool
    ensures { result ≡ spec.is_outside_event processors classes word.now }
{
    match event_parts(word) {
        Some(parts) => {
            value(parts.processor) >= processors
                || value(parts.class) >= classes
                || is_outside(1, MAX_EVENTS, value(parts.count))
        }
        None => false,
    }
}

/// The events that the word stands for.
fn event_count(word: &[u8]) -> u64
    ensures { result ≡ spec.event_count word.now }
{
    match event_parts(word) {
        Some(parts) => value(parts.count),
        None => 0,
    }
}

/// The item of an event word.
pub fn event_item(word: &[u8]) -> Item
    ensures { result ≡ spec.event_item word.now }
{
    match event_parts(word) {
        Some(parts) => Item::Events {
            processor: byte(parts.processor),
            class: byte(parts.class),
            count: value(parts.count).min(MAX_EVENTS) as u32,
        },
        None => Item::Events {
            processor: 0,
            class: 0,
            count: 0,
        },
    }
}

/// Whether one of the words isn't `P.C*N`.
pub fn has_no_event(words: &[&[u8]]) -> bool
    ensures { result ≡ list_any spec.is_no_event (views words.now) }
{
    words.iter().any(|word| is_no_event(word))
}

/// Whether one of the numbers of the event words is misspelt.
pub fn has_misspelt_event(words: &[&[u8]]) -> bool
    ensures { result ≡ list_any spec.is_misspelt_event (views words.now) }
{
    words.iter().any(|word| is_misspelt_event(word))
}

/// Whether one of the numbers of the event words is out of its range.
pub fn has_outside_event(words: &[&[u8]], processors: u64, classes: u64) -> bool
    ensures { result ≡ list_any (spec.is_outside_event processors classes) (views words.now) }
{
    words
        .iter()
        .any(|word| is_outside_event(word, processors, classes))
}

/// Whether so many events more are past the limit.
pub fn is_past(used: u64, count: u64) -> bool
    ensures { result ≡ spec.is_past used count }
{
    match used.checked_add(count) {
        Some(total) => total > MAX_EVENTS,
        None => true,
    }
}

/// The events so far with those of the words. None where they are past the limit.
#[tactic(auto, using(text_lines::proofs::Passing::passing))]
pub fn total_events(words: &[&[u8]], used: u64) -> Option<u64>
    ensures { MatchOption result (max_events < used + sum_by spec.event_count (views words.now))
        (λ total. (total ≡ used + sum_by spec.event_count (views words.now)) × (total ≤ max_events)) }
{
    let mut total = used;
    for word in words {
        total = total.checked_add(event_count(word))?;
    }
    if total > MAX_EVENTS {
        return None;
    }
    Some(total)
}
