//! A script that is being read.

ghost use Rattle.std.specs.Prelude.{◌≡◌, ◌<◌, ◌^◌, Some, [], ◌∷◌, length};
ghost use Rattle.std.specs.Result.{result_err};
ghost use Rattle.text_lines.specs.Lines.{views};
ghost use Rattle.text_lines.specs.Faults.{first_code, judged};
ghost use Rattle.text_lines.specs.Lines.{words_of};
ghost use Rattle.script_asm.specs.Script as spec;
ghost use Rattle.script_asm.specs.Reading.{place_of, Answers};

use crate::fault::{Code, Refusal};
use crate::names::Names;
use crate::op::Op;
use crate::operands::{instr_fault, made};
use crate::word::{begins_at, names_place, op_of};
use script_lang::Instr;
use std::alloc::Global;
use text_lines::{is_allowed_line, word_list};

/// What the lines so far say.
#[derive(Drop)]
pub struct Draft {
    /// How many lines there were.
    pub line: u64,
    /// The instructions of these lines.
    pub program: Vec<Instr>,
}

/// Whether an earlier line has the name.
fn stood_before(names: &Names, line: u64, word: &[u8]) -> bool
    ensures { result ≡ spec.stood_before names.now line word.now }
{
    match names.named(word) {
        Some(first) => first.line < line,
        None => false,
    }
}

/// What is wrong with a line that names a place.
#[tactic(auto, unfolding(crate::specs::Script::name_tests))]
fn name_fault(names: &Names, line: u64, word: &[u8], more: &[&[u8]]) -> Result<(), Code>
    ensures { first_code (spec.name_tests names.now line word.now (views more.now)) ≡ result_err result }
{
    if !names_place(word) {
        return Err(Code::Form);
    }
    if more.len() > 0 {
        return Err(Code::Form);
    }
    if stood_before(names, line, word) {
        return Err(Code::Twice);
    }
    Ok(())
}

impl Draft {
    pub fn new(alloc: Global) -> Draft
        ensures { place_of result ≡ spec.start }
    {
        Draft {
            line: 0,
            program: Vec::new(alloc),
        }
    }

    fn name_line(&mut self, names: &Names, word: &[u8], more: &[&[u8]]) -> Result<(), Refusal>
        requires { self.old.line < 2 ^ 32 }
        ensures { Answers (place_of self.old) (place_of self.new) result
            (judged (spec.name_tests names.now self.old.line word.now (views more.now)) (spec.next_place_with (place_of self.old) [])) }
    {
        match name_fault(names, self.line, word, more) {
            Ok(()) => {
                self.line += 1;
                Ok(())
            }
            Err(code) => Err(Refusal::Code(code)),
        }
    }

    fn instr_line(&mut self, names: &Names, op: Op, words: &[&[u8]]) -> Result<(), Refusal>
        requires { self.old.line < 2 ^ 32 }
        ensures { Answers (place_of self.old) (place_of self.new) result
            (judged (spec.instr_tests names.now (length self.old.program.items) (Some op) (views words.now)) (spec.next_place_with (place_of self.old) (spec.made names.now op (views words.now) ∷ []))) }
    {
        match instr_fault(names, self.program.len(), op, words) {
            Ok(()) => {
                self.program.push(made(names, op, words))?;
                self.line += 1;
                Ok(())
            }
            Err(code) => Err(Refusal::Code(code)),
        }
    }

    fn words(&mut self, names: &Names, words: &[&[u8]]) -> Result<(), Refusal>
        requires { self.old.line < 2 ^ 32 }
        ensures { Answers (place_of self.old) (place_of self.new) result
            (judged (spec.word_tests names.now (place_of self.old) (views words.now)) (spec.next_place names.now (place_of self.old) (views words.now))) }
    {
        let [word, more @ ..] = words else {
            self.line += 1;
            return Ok(());
        };
        if begins_at(word) {
            return self.name_line(names, word, more);
        }
        match op_of(word) {
            Some(op) => self.instr_line(names, op, more),
            None => Err(Refusal::Code(Code::Mnemonic)),
        }
    }

    /// Takes one more line.
    pub fn line(&mut self, alloc: Global, names: &Names, line: &[u8]) -> Result<(), Refusal>
        requires { self.old.line < 2 ^ 32 }
        ensures { Answers (place_of self.old) (place_of self.new) result
            (judged (spec.line_tests names.now (place_of self.old) line.now) (spec.next_place names.now (place_of self.old) (words_of line.now))) }
    {
        if !is_allowed_line(line) {
            return Err(Refusal::Code(Code::Mnemonic));
        }
        let words = word_list(alloc, line)?;
        self.words(names, words.as_slice())
    }
}
