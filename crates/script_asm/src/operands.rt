//! The operands of a line.

ghost use Rattle.std.specs.Prelude.{◌≡◌, ◌==◌, Some, length, option_map};
ghost use Rattle.std.specs.Result.{result_err};
ghost use Rattle.text_lines.specs.Lines.{views};
ghost use Rattle.text_lines.specs.Faults.{first_code};
ghost use Rattle.script_asm.specs.Script as spec;

use crate::fault::Code;
use crate::names::Names;
use crate::op::{Kind, Op, instr_of, kinds};
use crate::word::{begins_at, immediate_of, register_of, spelled, up_to};
use script_lang::Instr;

/// The most instructions of a script.
const MAX_INSTRUCTIONS: usize = 256;

fn number_or(number: Option<u64>, code: Code) -> Result<u64, Code>
    ensures { result ≡ spec.number_or number code }
{
    number.ok_or(code)
}

/// A target, which is to be below the number of instruction lines.
fn within(count: u64, target: Result<u64, Code>) -> Result<u64, Code>
    ensures { result ≡ spec.within count target }
{
    match target {
        Ok(n) => {
            if n >= count {
                return Err(Code::Past);
            }
            Ok(n)
        }
        Err(code) => Err(code),
    }
}

/// The place of a name.
fn named_place(names: &Names, word: &[u8]) -> Option<u64>
    ensures { result ≡ option_map (λ n. n.place) (spec.named names.now word.now) }
{
    Some(names.named(word)?.place)
}

/// A target: a number, or the place of a name.
fn target_of(names: &Names, word: &[u8]) -> Result<u64, Code>
    ensures { result ≡ spec.target_of names.now word.now }
{
    if begins_at(word) {
        return number_or(named_place(names, word), Code::Nameless);
    }
    number_or(spelled(word), Code::Number)
}

/// The operand's number, or its code.
#[tactic(auto, unfolding(crate::specs::Script::operand))]
fn operand(names: &Names, kind: Kind, word: &[u8]) -> Result<u64, Code>
    ensures { result ≡ spec.operand names.now kind word.now }
{
    match kind {
        Kind::Register => number_or(register_of(word), Code::Register),
        Kind::Immediate => number_or(immediate_of(word), Code::Number),
        Kind::Target => within(names.count(), target_of(names, word)),
        Kind::Index => number_or(up_to(31, spelled(word)), Code::Number),
    }
}

fn code_number(code: Code) -> u8
    ensures { result ≡ spec.code_number code }
{
    code as u8
}

fn is_code(code: Code, number: Result<u64, Code>) -> bool
    ensures { result ≡ spec.is_code code number }
{
    match number {
        Ok(_) => false,
        Err(other) => code_number(other) == code_number(code),
    }
}

/// Whether one of the operands has this code.
fn has_code(names: &Names, code: Code, kinds: &[Kind], words: &[&[u8]]) -> bool
    ensures { result ≡ spec.has_code names.now code kinds.now (views words.now) }
{
    let [kind, kinds @ ..] = kinds else {
        return false;
    };
    let [word, words @ ..] = words else {
        return false;
    };
    if is_code(code, operand(names, *kind, word)) {
        return true;
    }
    has_code(names, code, kinds, words)
}

/// What is wrong with the operands of an instruction, with `at` instructions before it.
#[tactic(auto, unfolding(crate::specs::Script::operand_tests))]
fn operand_fault(names: &Names, at: usize, kinds: &[Kind], words: &[&[u8]]) -> Result<(), Code>
    ensures { first_code (spec.operand_tests names.now at kinds.now (views words.now)) ≡ result_err result }
{
    if has_code(names, Code::Number, kinds, words) {
        return Err(Code::Number);
    }
    if has_code(names, Code::Register, kinds, words) {
        return Err(Code::Register);
    }
    if has_code(names, Code::Nameless, kinds, words) {
        return Err(Code::Nameless);
    }
    if at >= MAX_INSTRUCTIONS {
        return Err(Code::Long);
    }
    if has_code(names, Code::Past, kinds, words) {
        return Err(Code::Past);
    }
    Ok(())
}

fn has_length(words: &[&[u8]], count: usize) -> bool
    ensures { result ≡ (length (views words.now) == count) }
{
    words.len() == count
}

/// What is wrong with an instruction line of this mnemonic.
pub fn instr_fault(names: &Names, at: usize, op: Op, words: &[&[u8]]) -> Result<(), Code>
    ensures { first_code (spec.instr_tests names.now at (Some op) (views words.now)) ≡ result_err result }
{
    if !has_length(words, kinds(op).len()) {
        return Err(Code::Form);
    }
    operand_fault(names, at, kinds(op), words)
}

/// The number of the first operand, 0 where there is none.
fn first_value(names: &Names, kinds: &[Kind], words: &[&[u8]]) -> u64
    ensures { result ≡ spec.first_value names.now kinds.now (views words.now) }
{
    match (kinds, words) {
        ([kind, ..], [word, ..]) => operand(names, *kind, word).unwrap_or(0),
        _ => 0,
    }
}

fn later_kinds(kinds: &[Kind]) -> &[Kind]
    ensures { result.now ≡ spec.tail_of kinds.now }
{
    match kinds {
        [_, later @ ..] => later,
        [] => kinds,
    }
}

fn later_words<'a, 'b>(words: &'b [&'a [u8]]) -> &'b [&'a [u8]]
    ensures { views result.now ≡ spec.tail_of (views words.now) }
{
    match words {
        [_, later @ ..] => later,
        [] => words,
    }
}

/// The instruction of a line.
#[tactic(auto, unfolding(crate::specs::Script::made))]
pub fn made(names: &Names, op: Op, words: &[&[u8]]) -> Instr
    ensures { result ≡ spec.made names.now op (views words.now) }
{
    let (k1, w1) = (kinds(op), words);
    let (k2, w2) = (later_kinds(k1), later_words(w1));
    let (k3, w3) = (later_kinds(k2), later_words(w2));
    let (k4, w4) = (later_kinds(k3), later_words(w3));
    let (k5, w5) = (later_kinds(k4), later_words(w4));
    instr_of(
        op,
        first_value(names, k1, w1),
        first_value(names, k2, w2),
        first_value(names, k3, w3),
        first_value(names, k4, w4),
        first_value(names, k5, w5),
    )
}
