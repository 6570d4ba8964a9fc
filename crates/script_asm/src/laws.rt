//! What holds of the spelling of scripts, and that what is printed is read again.

ghost use Rattle.std.specs.Prelude.{◌≡◌, ◌⊎◌, ◌↔◌, ℕ, List};
ghost use Rattle.script_lang.specs.declared.instr.Instr.{Instr};
ghost use Rattle.script_asm.specs.Answer.{Says, IsFault, IsReadAs};
ghost use Rattle.script_asm.specs.Spelling.{Spells};

use crate::fault::AsmError;
use crate::printing::print;
use crate::reading::assemble;
use script_lang::Program;
use std::alloc::Global;

/// Lines spell at most one program, and they spell one exactly where none of them has a code.
#[tactic(auto, using(crate::proofs::SpellingLaws::laws))]
pub fn spelling_laws()
    // No line has a code, and the lines lead to a program, exactly where they spell it.
    ensures said { (ls : List (List ℕ)) (program : List Instr) → Says ls program ↔ Spells ls program }
    ensures one { (ls : List (List ℕ)) (program other : List Instr) → Spells ls program → Spells ls other → program ≡ other }
    ensures either { (ls : List (List ℕ)) → ((program : List Instr) × Spells ls program) ⊎ ((line code : ℕ) × IsFault ls line code) }
    ensures never { (ls : List (List ℕ)) (program : List Instr) (line code : ℕ) → Spells ls program → IsFault ls line code → ⊥ }
{}

/// The program that its own printed text spells, which is the same, unless memory runs out.
pub fn printed_again(alloc: Global, program: &Program) -> Result<Program, AsmError>
    ensures { IsReadAs program.now result }
{
    let text = print(alloc, program)?;
    assemble(alloc, text.as_str())
}
