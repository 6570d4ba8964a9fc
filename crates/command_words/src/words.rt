//! The words from left to right.

ghost use Rattle.std.specs.Prelude.{◌≡◌, ◌↔◌, ℕ, Some};
ghost use Rattle.std.specs.List.{list_any};
ghost use Rattle.text_lines.specs.Faults.{first_code};
ghost use Rattle.text_lines.specs.Lines.{views};
ghost use Rattle.command_words.specs.Reading as reading;
ghost use Rattle.command_words.specs.Words.{Accepts, is_option, kinds};

use crate::asked::{Plan, PlanError};
use crate::command::{Command, command_of};
use crate::kind::{NO_COMMAND, NO_WORD, OPTION};
use crate::number::{class_number, ended, long_number};

/// Whether a word begins with `-`.
fn begins_with_dash(word: &str) -> bool
    ensures { result ≡ is_option word.now }
{
    match word.as_bytes() {
        [first, ..] => *first == b'-',
        [] => false,
    }
}

/// Whether some word begins with `-`.
#[tactic(auto, using(text_lines::proofs::Passing::passing))]
fn has_option(words: &[&str]) -> bool
    ensures { result ≡ list_any is_option (views words.now) }
{
    for word in words {
        if begins_with_dash(word) {
            return true;
        }
    }
    false
}

/// The plan of a command and what stands behind it.
fn planned(command: Command, rest: &[&str]) -> Result<Plan, PlanError>
    ensures { result ≡ reading.planned command (views rest.now) }
{
    match command {
        Command::Sim => ended(Plan::Sim, rest),
        Command::Run => ended(Plan::Run, rest),
        Command::Show => ended(Plan::Show, rest),
        Command::View => match class_number(rest) {
            Ok(class) => Ok(Plan::View { class }),
            Err(fault) => Err(fault),
        },
        Command::Large => match long_number(rest) {
            Ok(number) => Ok(Plan::Large { number }),
            Err(fault) => Err(fault),
        },
        Command::Audit => match class_number(rest) {
            Ok(class) => Ok(Plan::Audit { class }),
            Err(fault) => Err(fault),
        },
        Command::Guard => ended(Plan::Guard, rest),
        Command::Save => ended(Plan::Save, rest),
        Command::Restore => ended(Plan::Restore, rest),
    }
}

/// The plan of words of which none begins with `-`.
fn plan_of_plain(words: &[&str]) -> Result<Plan, PlanError>
    ensures { result ≡ reading.plan_of_plain (views words.now) }
{
    let [word, rest @ ..] = words else {
        return Err(PlanError::Fault { kind: NO_WORD });
    };
    match command_of(word.as_bytes()) {
        Some(command) => planned(command, rest),
        None => Err(PlanError::Fault { kind: NO_COMMAND }),
    }
}

/// The plan of the words.
fn plan_of(words: &[&str]) -> Result<Plan, PlanError>
    ensures { result ≡ reading.plan_of (views words.now) }
{
    if has_option(words) {
        return Err(PlanError::Fault { kind: OPTION });
    }
    plan_of_plain(words)
}

/// What the words behind the program's name ask for. The accepted lists are `sim`, `run`, `show`, `view N` and `audit N` with N from
/// 0 to 15, `large N` with N below 2^64, `guard`, `save` and `restore`. N is decimal digits without a needless zero in front.
/// Every other list is answered by the first kind of fault that holds of it.
pub fn plan(words: &[&str]) -> Result<Plan, PlanError>
    ensures accepts { (p : Plan) → (result ≡ Ok p) ↔ Accepts (views words.now) p }
    ensures refuses { (kind : ℕ) → (result ≡ Err (PlanError.Fault kind)) ↔ (first_code (kinds (views words.now)) ≡ Some kind) }
{
    plan_of(words)
}
