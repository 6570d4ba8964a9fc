//! The number behind a command.

ghost use Rattle.std.specs.Prelude.{◌≡◌};
ghost use Rattle.text_lines.specs.Lines.{views};
ghost use Rattle.command_words.specs.Reading as spec;
ghost use Rattle.command_words.specs.Words.{number_up_to, last_class, last_number};

use crate::asked::PlanError;
use crate::kind::{BAD_NUMBER, NO_NUMBER, WORD_TOO_MANY};
use text_lines::number;

/// The greatest number of a class.
const LAST_CLASS: u64 = 15;

/// The number up to the greatest one that the word spells.
fn number_up_to(word: &str, greatest: u64) -> Option<u64>
    ensures { result ≡ number_up_to greatest word.now }
{
    match number(word.as_bytes()) {
        Ok(n) if n <= greatest => Some(n),
        _ => None,
    }
}

/// The plan, where no word is left.
pub fn ended<T: Drop>(plan: T, rest: &[&str]) -> Result<T, PlanError>
    ensures { result ≡ spec.ended plan (views rest.now) }
{
    if rest.is_empty() {
        Ok(plan)
    } else {
        Err(PlanError::Fault {
            kind: WORD_TOO_MANY,
        })
    }
}

/// The number up to the greatest one that the words are.
fn number_alone(rest: &[&str], greatest: u64) -> Result<u64, PlanError>
    ensures { result ≡ spec.number_alone greatest (views rest.now) }
{
    let [word, more @ ..] = rest else {
        return Err(PlanError::Fault { kind: NO_NUMBER });
    };
    match number_up_to(word, greatest) {
        Some(n) => ended(n, more),
        None => Err(PlanError::Fault { kind: BAD_NUMBER }),
    }
}

/// The number of 64 bits that the words are.
pub fn long_number(rest: &[&str]) -> Result<u64, PlanError>
    ensures { result ≡ spec.number_alone last_number (views rest.now) }
{
    number_alone(rest, u64::MAX)
}

/// The number of a class that the words are.
pub fn class_number(rest: &[&str]) -> Result<u8, PlanError>
    ensures { result ≡ spec.number_alone last_class (views rest.now) }
{
    match number_alone(rest, LAST_CLASS) {
        Ok(class) => Ok(class as u8),
        Err(fault) => Err(fault),
    }
}
