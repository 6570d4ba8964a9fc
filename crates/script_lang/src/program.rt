//! Programs.

ghost use Rattle.std.specs.Prelude.{◌≡◌, ◌≤◌, ℕ, not, length, position, slice_get, IsTrue, IfOk, IsOk, MatchResult, Ok, Err, ◌↔◌, Some, None};
ghost use Rattle.std.specs.Result.{result_err};
ghost use Rattle.std.specs.Option.{option_map};
ghost use Rattle.script_lang.specs.Program.{target_ok, is_last, program_ok};
ghost use Rattle.script_lang.specs.Fault.{IsFirstFault, ends_well, first_fault};

use crate::instr::Instr;
use std::alloc::{AllocError, Global};
use std::marker::Model;

/// Why a list of instructions is no program.
#[derive(Clone, Copy, Debug, PartialEq, Eq)]
pub enum ProgramError {
    /// The place of the first fault: 256 for a longer list; else the least place whose target is out of range; else
    /// the last place (0 for the empty list), where the last instruction is neither `halt` nor `jump`.
    Fault { at: usize },
}

/// A script's instructions. Contracts see their list: 1 to 256 instructions whose last is `halt` or `jump` and
/// whose targets are below its length.
#[derive(Drop)]
pub struct Program {
    list: Vec<Instr>,
}

impl Model for Program {
    ghost use Rattle.std.specs.Prelude.{List, IsTrue};
    ghost use Rattle.script_lang.specs.declared.instr.Instr.{Instr};
    ghost use Rattle.script_lang.specs.Program.{program_ok};

    ghost Value = { List Instr };

    ghost view = { λ p. p.list.items };

    ghost invariant = { λ p. IsTrue (program_ok p.list.items) };
}

/// Whether the target of a jump is below `count`.
fn has_good_target(instr: &Instr, count: usize) -> bool
    ensures { result ≡ target_ok count instr.now }
{
    match instr {
        Instr::Jump(to) | Instr::JumpZ(_, to) | Instr::JumpL(_, _, to) => usize::from(*to) < count,
        _ => true,
    }
}

/// Whether it may stand last.
fn may_end(instr: &Instr) -> bool
    ensures { result ≡ is_last instr.now }
{
    matches!(instr, Instr::Halt | Instr::Jump(_))
}

/// The least place whose target is out of range.
fn bad_target(list: &[Instr]) -> Option<usize>
    ensures { result ≡ position (λ i. not (target_ok (length list.now) i)) list.now }
{
    let count = list.len();
    list.iter().position(|instr| !has_good_target(instr, count))
}

/// Whether the last instruction may stand last.
fn has_good_end(list: &[Instr]) -> bool
    ensures { result ≡ ends_well list.now }
{
    match list.last() {
        Some(instr) => may_end(instr),
        None => false,
    }
}

/// The place of the first fault.
#[tactic(auto, unfolding(crate::specs::Fault::first_fault))]
fn find_fault(list: &[Instr]) -> Option<usize>
    ensures { result ≡ first_fault list.now }
{
    if list.len() > 256 {
        return Some(256);
    }
    if let Some(at) = bad_target(list) {
        return Some(at);
    }
    if has_good_end(list) {
        return None;
    }
    Some(list.len().saturating_sub(1))
}

impl Program {
    /// The program of these instructions, or the place of their first fault.
    pub fn new(list: Vec<Instr>) -> Result<Program, ProgramError>
        ensures program { IfOk result (λ p. (p ≡ list.items) × IsTrue (program_ok p)) }
        ensures accepted { IsTrue (program_ok list.items) ↔ IsOk result }
        ensures fault { (at : ℕ) → (result ≡ Err (ProgramError.Fault at)) ↔ IsFirstFault list.items at }
    {
        match find_fault(list.as_slice()) {
            Some(at) => Err(ProgramError::Fault { at }),
            None => Ok(Program { list }),
        }
    }

    /// The instructions.
    pub fn list(&self) -> &[Instr]
        ensures list { result.now ≡ self.now }
        ensures program { IsTrue (program_ok result.now) }
    {
        self.list.as_slice()
    }

    /// An equal program.
    pub fn copy(&self, alloc: Global) -> Result<Program, AllocError>
        ensures { IfOk result (λ p. p ≡ self.now) }
    {
        let list = Vec::from_slice(alloc, self.list.as_slice())?;
        Ok(Program { list })
    }
}
