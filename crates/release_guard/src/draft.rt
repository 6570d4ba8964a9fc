//! A release order that is being read.

ghost use Rattle.std.specs.Prelude.{◌≡◌, ◌+◌, ◌^◌, ◌<◌, List, ℕ, length};
ghost use Rattle.text_lines.specs.Faults.{judged, line_answer};
ghost use Rattle.text_lines.specs.Lines.{views};
ghost use Rattle.release_guard.specs.Place.{place_of, start};
ghost use Rattle.release_guard.specs.Rules as spec;
ghost use Rattle.release_guard.specs.Reading.{Answers};
ghost use Rattle.release_guard.specs.declared.order.Stage.TheVariants as stage;

use crate::fault::{Code, Refusal};
use crate::order::{MAX_RELEASES, Release, Stage};
use crate::parts::{after_class, class_count, header_fault, identity, new_entry, one_misspelt};
use arrayvec::ArrayString;
use config_text::{byte, is_misspelt, value};
use labels::Label;
use std::alloc::Global;
use text_lines::{is_allowed_line, is_text, word_list};

/// What the lines so far say.
#[derive(Drop)]
pub struct Draft {
    pub stage: Stage,
    /// How many class lines are still to come.
    pub due: u8,
    pub entries: Vec<(ArrayString<16>, Label)>,
    pub releases: Vec<Release>,
    pub export: u8,
    /// The number of the next line, counted from 1.
    pub line: u32,
}

impl Draft {
    /// Nothing is read yet.
    pub fn new(alloc: Global) -> Draft
        ensures { place_of result ≡ start }
    {
        Draft {
            stage: Stage::Header,
            due: 0,
            entries: Vec::new(alloc),
            releases: Vec::new(alloc),
            export: 0,
            line: 1,
        }
    }

    fn header(&mut self, words: &[&[u8]]) -> Result<(), Refusal>
        ensures { Answers (place_of self.new) result
            (judged (spec.header_tests (views words.now)) (record (place_of self.old) { stage = stage.Count })) }
    {
        header_fault(words)?;
        self.stage = Stage::Count;
        Ok(())
    }

    fn count(&mut self, words: &[&[u8]]) -> Result<(), Refusal>
        ensures { Answers (place_of self.new) result
            (judged (spec.count_tests (views words.now)) (record (place_of self.old) { stage = stage.Classes; due = spec.count_in (views words.now) })) }
    {
        let count = class_count(words)?;
        self.stage = Stage::Classes;
        self.due = count;
        Ok(())
    }

    fn class(&mut self, words: &[&[u8]]) -> Result<(), Refusal>
        ensures { Answers (place_of self.new) result
            (judged (spec.class_tests (place_of self.old).table (views words.now)) (spec.class_next (place_of self.old) (views words.now))) }
    {
        let [keyword, name, label] = words else {
            return Err(Refusal::Code(Code::Form));
        };
        if !is_text(keyword, b"class") {
            return Err(Refusal::Code(Code::Form));
        }
        let class = match new_entry(self.entries.as_slice(), name, label) {
            Ok(class) => class,
            Err(code) => return Err(Refusal::Code(code)),
        };
        self.entries.push(class)?;
        self.due = self.due.saturating_sub(1);
        self.stage = after_class(self.due);
        Ok(())
    }

    /// Takes a release by the words behind its keyword.
    fn release(&mut self, words: &[&[u8]]) -> Result<(), Refusal>
        ensures { Answers (place_of self.new) result
            (judged (spec.release_tests (place_of self.old) (views words.now)) (spec.release_next (place_of self.old) (views words.now))) }
    {
        let [from_class, from_serial, to, to_class, to_serial] = words else {
            return Err(Refusal::Code(Code::Form));
        };
        if !is_text(to, b"to") {
            return Err(Refusal::Code(Code::Form));
        }
        if one_misspelt(from_class, from_serial, to_class, to_serial) {
            return Err(Refusal::Code(Code::Number));
        }
        let classes = self.entries.len() as u64;
        let Some(from) = identity(from_class, from_serial, classes) else {
            return Err(Refusal::Code(Code::Range));
        };
        let Some(to) = identity(to_class, to_serial, classes) else {
            return Err(Refusal::Code(Code::Range));
        };
        if self.releases.len() >= MAX_RELEASES {
            return Err(Refusal::Code(Code::Limit));
        }
        let line = self.line;
        self.releases.push(Release { line, from, to })?;
        Ok(())
    }

    /// Takes the export by the words behind its keyword.
    fn export(&mut self, words: &[&[u8]]) -> Result<(), Refusal>
        ensures { Answers (place_of self.new) result
            (judged (spec.export_tests (place_of self.old) (views words.now)) (spec.export_next (place_of self.old) (views words.now))) }
    {
        let [class] = words else {
            return Err(Refusal::Code(Code::Form));
        };
        if is_misspelt(class) {
            return Err(Refusal::Code(Code::Number));
        }
        if value(class) >= self.entries.len() as u64 {
            return Err(Refusal::Code(Code::Range));
        }
        self.stage = Stage::End;
        self.export = byte(class);
        Ok(())
    }

    /// Takes a release or the export.
    fn body(&mut self, words: &[&[u8]]) -> Result<(), Refusal>
        ensures { Answers (place_of self.new) result
            (judged (spec.body_tests (place_of self.old) (views words.now)) (spec.body_next (place_of self.old) (views words.now))) }
    {
        let [keyword, rest @ ..] = words else {
            return Ok(());
        };
        if is_text(keyword, b"release") {
            return self.release(rest);
        }
        if !is_text(keyword, b"export") {
            return Err(Refusal::Code(Code::Form));
        }
        self.export(rest)
    }

    fn end(&mut self, words: &[&[u8]]) -> Result<(), Refusal>
        ensures { Answers (place_of self.new) result
            (judged (spec.end_tests (views words.now)) (record (place_of self.old) { stage = stage.Ended })) }
    {
        let [keyword] = words else {
            return Err(Refusal::Code(Code::Form));
        };
        if !is_text(keyword, b"end") {
            return Err(Refusal::Code(Code::Form));
        }
        self.stage = Stage::Ended;
        Ok(())
    }

    /// Takes the words of one more line.
    fn words(&mut self, words: &[&[u8]]) -> Result<(), Refusal>
        ensures { Answers (place_of self.new) result
            (judged (spec.word_tests (place_of self.old) (views words.now)) (spec.word_next (place_of self.old) (views words.now))) }
    {
        if words.is_empty() {
            return Ok(());
        }
        match self.stage {
            Stage::Header => self.header(words),
            Stage::Count => self.count(words),
            Stage::Classes => self.class(words),
            Stage::Releases => self.body(words),
            Stage::End => self.end(words),
            Stage::Ended => Err(Refusal::Code(Code::Form)),
        }
    }

    /// Takes one more line.
    pub fn step(&mut self, alloc: Global, line: &[u8]) -> Result<(), Refusal>
        requires { self.old.line + 1 < 2 ^ 32 }
        ensures { (more : List (List ℕ)) → Answers (place_of self.new) result (line_answer spec.order_rules (place_of self.old) line.now more) }
    {
        if !is_allowed_line(line) {
            return Err(Refusal::Code(Code::Bytes));
        }
        let number = self.line;
        let words = word_list(alloc, line)?;
        self.words(words.as_slice())?;
        self.line = number + 1;
        Ok(())
    }
}
