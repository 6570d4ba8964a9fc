//! A line and, where it begins a script, the lines up to the script's end.

ghost use Rattle.std.specs.Prelude.{◌≡◌, ◌+◌, ◌-◌, ◌^◌, ◌<◌, length, drop};
ghost use Rattle.text_lines.specs.Lines.{views, words_of};
ghost use Rattle.config_text.specs.Place.{place_of};
ghost use Rattle.config_text.specs.Rules.{is_end, body_of};
ghost use Rattle.config_text.specs.Reading.{ScriptSteps, Steps, next_code};

use crate::config::Script;
use crate::draft::{Draft, Taken};
use crate::fault::{Code, Refusal, Stop, script_code};
use crate::stage::Stage;
use script_asm::{AsmError, Code as ScriptCode, read_lines};
use std::alloc::Global;
use text_lines::{Words, is_allowed_line, is_text, word_list};

/// Whether the line's only word is `end`.
fn is_end_line(line: &[u8]) -> bool
    ensures { result ≡ is_end (words_of line.now) }
{
    let mut words = Words::new(line);
    match words.next() {
        Some(word) => is_text(word, b"end") && words.next().is_none(),
        None => false,
    }
}

/// How many of the lines stand before the one that ends a script.
#[tactic(auto, using(text_lines::proofs::Passing::passing))]
fn body_length(lines: &[&[u8]]) -> usize
    ensures { result ≡ length (body_of (views lines.now)) }
{
    let mut count = 0;
    for line in lines {
        if is_end_line(line) {
            return count;
        }
        count += 1;
    }
    count
}

/// The code of the line of this number, counted from 1, that has this code as a line of a script.
fn line_code(lines: &[&[u8]], number: usize, code: ScriptCode) -> Code
    ensures { result ≡ next_code code (drop (number - 1) (views lines.now)) }
{
    match lines.get(number.saturating_sub(1)) {
        Some(line) => {
            if is_allowed_line(line) {
                return script_code(code);
            }
            Code::Bytes
        }
        None => Code::Missing,
    }
}

impl Draft {
    /// Takes the lines of a script of the class, with its `end`. Returns how many they are.
    fn script(&mut self, alloc: Global, class: u8, more: &[&[u8]]) -> Result<usize, Stop>
        requires { length more.now + 1 < 2 ^ 32 }
        ensures { ScriptSteps (place_of self.old) class (views more.now) (place_of self.new) result }
    {
        let count = body_length(more);
        let program = match read_lines(alloc, &more[..count]) {
            Ok(program) => program,
            Err(AsmError::Fault { line, code }) => {
                let offset = line as usize;
                return Err(Stop::Fault {
                    offset,
                    code: line_code(more, offset, code),
                });
            }
            Err(AsmError::NoMemory) => return Err(Stop::Memory),
        };
        let Some(end) = more.get(count) else {
            return Err(Stop::Fault {
                offset: count + 1,
                code: Code::Missing,
            });
        };
        if !is_allowed_line(end) {
            return Err(Stop::Fault {
                offset: count + 1,
                code: Code::Bytes,
            });
        }
        self.scripts.push(Script { class, program })?;
        self.stage = Stage::Scripts;
        Ok(count + 1)
    }

    /// Takes a line outside a script, and the lines of the script that it may begin. Returns how many of the lines
    /// behind it are taken.
    pub fn step(&mut self, alloc: Global, line: &[u8], more: &[&[u8]]) -> Result<usize, Stop>
        requires { length more.now + 1 < 2 ^ 32 }
        ensures { Steps (place_of self.old) line.now (views more.now) (place_of self.new) result }
    {
        if !is_allowed_line(line) {
            return Err(Stop::Fault {
                offset: 0,
                code: Code::Bytes,
            });
        }
        let words = word_list(alloc, line)?;
        match self.line(alloc, words.as_slice()) {
            Ok(Taken::Line) => Ok(0),
            Ok(Taken::Script { class }) => self.script(alloc, class, more),
            Err(Refusal::Code(code)) => Err(Stop::Fault { offset: 0, code }),
            Err(Refusal::Memory) => Err(Stop::Memory),
        }
    }
}
