//! Reading a script.

ghost use Rattle.std.specs.Prelude.{◌≡◌, ◌+◌, ◌^◌, ◌<◌, ◌≤◌, ℕ, List, IsTrue, IfOk, length};
ghost use Rattle.text_lines.specs.Lines.{lines, views};
ghost use Rattle.text_lines.specs.Faults.{lines_answer};
ghost use Rattle.script_lang.specs.declared.instr.Instr.{Instr};
ghost use Rattle.script_lang.specs.Fault.{ends_well};
ghost use Rattle.script_lang.specs.Program.{program_ok};
ghost use Rattle.script_asm.specs.Script.{start, script_rules, words_in};
ghost use Rattle.script_asm.specs.Answer.{AnswersScript, AllowsBytes, IsFault, IsReadAs, IsRefusedWith};
ghost use Rattle.script_asm.specs.Spelling.{Spells, max_text};
ghost use Rattle.script_asm.specs.Reading.{place_of, Reads};

use crate::draft::Draft;
use crate::fault::{AsmError, Code, Refusal};
use crate::names::Names;
use script_lang::{Instr, Program};
use std::alloc::{AllocError, Global};
use text_lines::Lines;

/// Whether the last instruction may stand last.
fn has_good_end(program: &[Instr]) -> bool
    ensures { result ≡ ends_well program.now }
{
    match program.last() {
        Some(instr) => matches!(instr, Instr::Halt | Instr::Jump(_)),
        None => false,
    }
}

/// What the lines say, of which these are the names.
#[tactic(auto, using(crate::proofs::Steps::steps))]
fn read_by(alloc: Global, names: &Names, lines: &[&[u8]]) -> Result<Draft, AsmError>
    requires few { length lines.now + 1 < 2 ^ 32 }
    requires names { names.now ≡ words_in (views lines.now) }
    ensures { Reads result (lines_answer (script_rules (words_in (views lines.now))) start 1 (views lines.now)) }
{
    let mut draft = Draft::new(alloc);
    let mut number = 1u32;
    for line in lines {
        match draft.line(alloc, names, line) {
            Ok(()) => number += 1,
            Err(Refusal::Code(code)) => {
                return Err(AsmError::Fault { line: number, code });
            }
            Err(Refusal::Memory) => return Err(AsmError::NoMemory),
        }
    }
    if !has_good_end(draft.program.as_slice()) {
        return Err(AsmError::Fault {
            line: number,
            code: Code::End,
        });
    }
    Ok(draft)
}

/// What the lines say.
fn read(alloc: Global, lines: &[&[u8]]) -> Result<Draft, AsmError>
    requires { length lines.now + 1 < 2 ^ 32 }
    ensures { Reads result (lines_answer (script_rules (words_in (views lines.now))) start 1 (views lines.now)) }
{
    let names = Names::new(alloc, lines)?;
    read_by(alloc, &names, lines)
}

/// The program of these instructions.
fn program_of(list: Vec<Instr>) -> Program
    requires { IsTrue (program_ok list.items) }
    ensures { result ≡ list.items }
{
    match Program::new(list) {
        Ok(program) => program,
        Err(_) => unreachable!(),
    }
}

/// The program that a draft says.
fn finished(draft: Draft) -> Program
    requires { IsTrue (program_ok draft.program.items) }
    ensures { result ≡ draft.program.items }
{
    let Draft { line: _, program } = draft;
    program_of(program)
}

/// The program that a script's lines spell, or their first fault: its line, counted from 1, and that line's least code.
/// Where the script's end is at fault, the line is one past the last. Lines have no line feed.
#[tactic(auto, using(crate::proofs::Outcome::outcomes))]
pub fn read_lines(alloc: Global, lines: &[&[u8]]) -> Result<Program, AsmError>
    requires { length lines.now + 1 < 2 ^ 32 }
    // What is read is what the lines spell, and a fault is the first one, with its least code.
    ensures right { AnswersScript (views lines.now) result }
    // What the lines spell is read, and what is faulty is refused with that fault, unless memory runs out.
    ensures only { (program : List Instr) → Spells (views lines.now) program → IsReadAs program result }
    ensures refused { (line code : ℕ) → IsFault (views lines.now) line code → IsRefusedWith line code result }
    // Lines without a code have only allowed bytes.
    ensures bytes { AllowsBytes (views lines.now) result }
{
    match read(alloc, lines) {
        Ok(draft) => Ok(finished(draft)),
        Err(error) => Err(error),
    }
}

/// The lines of a text, in a list.
fn line_list(alloc: Global, text: &[u8]) -> Result<Vec<&[u8]>, AllocError>
    ensures { IfOk result (λ v. views v.items ≡ lines text.now) }
{
    Lines::new(text).collect(alloc)
}

/// The program that the text spells, or its first faulty line with that line's least code. The text has at most
/// 1,048,576 bytes.
pub fn assemble(alloc: Global, text: &str) -> Result<Program, AsmError>
    requires { length text.now ≤ max_text }
    // What is read is what the text spells, and a fault is the first one, with its least code.
    ensures right { AnswersScript (lines text.now) result }
    // What the text spells is read, and what is faulty is refused with that fault, unless memory runs out.
    ensures only { (program : List Instr) → Spells (lines text.now) program → IsReadAs program result }
    ensures refused { (line code : ℕ) → IsFault (lines text.now) line code → IsRefusedWith line code result }
{
    let list = line_list(alloc, text.as_bytes())?;
    read_lines(alloc, list.as_slice())
}
