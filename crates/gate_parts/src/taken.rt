//! What a loaded word is taken as.

ghost use Rattle.std.specs.Prelude.{◌≡◌};
ghost use Rattle.words_layout.specs.Coding.{home_of, entry_of};
ghost use Rattle.gate_parts.specs.Taken.{IsHome};

use words_layout::{Alias, Home, unpack_alias, unpack_home};

/// The home that a word spells; a word that spells none is taken as Never.
pub fn home_taken(word: u64) -> Home
    ensures value { result ≡ home_of word }
    ensures range { IsHome result }
{
    match unpack_home(word) {
        Some(home) => home,
        None => Home::Never,
    }
}

/// The entry that a word spells; a word that spells none is taken as the empty entry.
pub fn entry_taken(word: u64) -> Option<Alias>
    ensures { result ≡ entry_of word }
{
    match unpack_alias(word) {
        Some(entry) => entry,
        None => None,
    }
}
