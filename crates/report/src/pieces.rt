//! The lines of a report.

ghost use Rattle.std.specs.Prelude.{◌≡◌, ◌<◌, ◌≤◌, ◌∷◌, [], length, map, codes, Some};
ghost use Rattle.std.specs.Fmt.{decimal};
ghost use Rattle.words_layout.specs.Sizes.{most_frames, most_pages, most_words};
ghost use Rattle.words_layout.specs.Words.{FrameWord, PageWord};
ghost use Rattle.words_layout.specs.Named.{words_in};
ghost use Rattle.class_model.specs.Report.{line_of, state_word, entry_text, words_text};
ghost use Rattle.machine.specs.Reading.{words_from};
ghost use Rattle.report.specs.Reported.{home_text};
ghost use Rattle.report.specs.Found.{HasClass};
ghost use Rattle.report.specs.Parts.{console_text};

use crate::line::Line;
use crate::reading::{Found, frame_word, page_word};
use process::Process;
use words_layout::{Alias, Home, PlainWords, SegId};

/// The first line of a section.
pub fn heading(class: u8, name: &str) -> Line
    requires { length name.now ≤ 16 }
    ensures { result ≡ line_of (codes "class" ∷ decimal class ∷ name.now ∷ []) }
{
    let mut line = Line::of(b"class");
    line.number(u64::from(class));
    line.word(name.as_bytes());
    line.end();
    line
}

/// A line of the console.
pub fn console_line(value: u64) -> Line
    ensures { result ≡ console_text value }
{
    let mut line = Line::of(b"line");
    line.number(value);
    line.end();
    line
}

fn word_of_state(live: bool) -> &'static [u8]
    ensures text { result.now ≡ state_word live }
    ensures short { length result.now ≤ 5 }
{
    if live { b"live" } else { b"ended" }
}

/// The line of a process.
pub fn process_line(processor: u8, slot: u8, process: &Process) -> Line
    ensures { result ≡ line_of (codes "process" ∷ decimal processor ∷ decimal slot ∷ state_word process.now.process.live ∷ codes "script" ∷ decimal process.now.process.script ∷ codes "place" ∷ decimal process.now.process.place ∷ codes "ring" ∷ decimal process.now.process.ring ∷ []) }
{
    let mut line = Line::of(b"process");
    line.number(u64::from(processor));
    line.number(u64::from(slot));
    line.word(word_of_state(process.is_live()));
    line.word(b"script");
    line.number(u64::from(process.script()));
    line.word(b"place");
    line.number(u64::from(process.place()));
    line.word(b"ring");
    line.number(u64::from(process.ring().number()));
    line.end();
    line
}

/// The line of its registers.
pub fn registers_line(registers: &[u64]) -> Line
    requires { length registers.now ≤ 16 }
    ensures { result ≡ line_of (codes "regs" ∷ map decimal registers.now) }
{
    let mut line = Line::of(b"regs");
    for value in registers {
        line.number(*value);
    }
    line.end();
    line
}

/// A line of one word.
pub fn word_line(word: &[u8]) -> Line
    requires { length word.now ≤ 8 }
    ensures { result ≡ line_of (word.now ∷ []) }
{
    let mut line = Line::of(word);
    line.end();
    line
}

fn word_of_home(home: &Home) -> &'static [u8]
    ensures text { result.now ≡ home_text home.now }
    ensures short { length result.now ≤ 8 }
{
    match home {
        Home::Never => b"never",
        Home::Stored { .. } => b"stored",
        Home::Resident { .. } => b"in",
        Home::Deleted => b"deleted",
    }
}

/// The line of a segment.
pub fn segment_line(seg: SegId, found: &Found) -> Line
    ensures { result ≡ line_of (codes "segment" ∷ decimal seg.mentor ∷ decimal seg.serial ∷ home_text found.now.home ∷ codes "writes" ∷ decimal found.now.writes ∷ codes "count" ∷ decimal found.now.count ∷ codes "tickets" ∷ decimal found.now.tickets ∷ []) }
{
    let mut line = Line::of(b"segment");
    line.number(u64::from(seg.mentor));
    line.number(u64::from(seg.serial));
    line.word(word_of_home(&found.home));
    line.word(b"writes");
    line.number(found.writes);
    line.word(b"count");
    line.number(found.count);
    line.word(b"tickets");
    line.number(found.tickets);
    line.end();
    line
}

/// The line of the words of a frame.
pub fn frame_line(words: &PlainWords, class: u8, frame: u8, size: u8) -> Line
    requires class { HasClass words.now class }
    requires frame { frame < most_frames }
    requires size { size ≤ most_words }
    ensures { result ≡ words_text (Some (words_from (λ i. (words_in words.now class).guarded (FrameWord frame i)) size)) }
{
    let mut line = Line::of(b"words");
    for place in 0..size {
        line.number(frame_word(words, class, frame, place));
    }
    line.end();
    line
}

/// The line of the words of a page.
pub fn page_line(words: &PlainWords, class: u8, page: u8, size: u8) -> Line
    requires class { HasClass words.now class }
    requires page { page < most_pages }
    requires size { size ≤ most_words }
    ensures { result ≡ words_text (Some (words_from (λ i. (words_in words.now class).guarded (PageWord page i)) size)) }
{
    let mut line = Line::of(b"words");
    for place in 0..size {
        line.number(page_word(words, class, page, place));
    }
    line.end();
    line
}

/// The line of an entry.
pub fn entry_line(entry: u8, alias: &Alias) -> Line
    ensures { result ≡ entry_text (entry, alias.now) }
{
    let mut line = Line::of(b"entry");
    line.number(u64::from(entry));
    line.word(b"class");
    line.number(u64::from(alias.class));
    line.word(b"brackets");
    line.number(u64::from(alias.r1));
    line.number(u64::from(alias.r2));
    line.number(u64::from(alias.r3));
    line.word(b"size");
    line.number(u64::from(alias.size));
    line.word(b"serial");
    line.number(u64::from(alias.serial));
    line.end();
    line
}
