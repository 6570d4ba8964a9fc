//! The commands by their words.

ghost use Rattle.std.specs.Prelude.{◌≡◌};
ghost use Rattle.command_words.specs.Words as spec;

use text_lines::is_text;

/// What the first word names.
#[derive(Clone, Copy, Debug, PartialEq, Eq)]
pub enum Command {
    Sim,
    Run,
    Show,
    View,
    Large,
    Audit,
    Guard,
    Save,
    Restore,
}

/// The command of a word.
pub fn command_of(word: &[u8]) -> Option<Command>
    ensures { result ≡ spec.command_of word.now }
{
    if is_text(word, b"sim") {
        Some(Command::Sim)
    } else if is_text(word, b"run") {
        Some(Command::Run)
    } else if is_text(word, b"show") {
        Some(Command::Show)
    } else if is_text(word, b"view") {
        Some(Command::View)
    } else if is_text(word, b"large") {
        Some(Command::Large)
    } else if is_text(word, b"audit") {
        Some(Command::Audit)
    } else if is_text(word, b"guard") {
        Some(Command::Guard)
    } else if is_text(word, b"save") {
        Some(Command::Save)
    } else if is_text(word, b"restore") {
        Some(Command::Restore)
    } else {
        None
    }
}
