//! Homes and entries, and the words that spell them.

ghost use Rattle.std.specs.Prelude.{◌≡◌, ◌/◌, ◌%◌, ◌^◌, ◌<◌, ◌≤◌, ◌↔◌, true, Option, IsNone};
ghost use Rattle.std.specs.Option.{option_map};
ghost use Rattle.words_layout.specs.Coding.{home_word, size_in_range, home_in_range, pack_home, home_as_read, unpack_home, alias_in_range, pack_entry, pack_alias, alias_read, unpack_alias};
ghost use Rattle.words_layout.specs.Spelling.{SpellsHome, entry_in_range, SpellsEntry};
ghost use Rattle.words_layout.specs.declared.coding.Home.{Home};
ghost use Rattle.words_layout.specs.declared.coding.Alias.{Alias};

use crate::limits::{CLASS_LIMIT, FRAME_LIMIT, PAGE_LIMIT, SERIAL_LIMIT, SIZE_LIMIT};

/// Where a segment's words are.
#[derive(Clone, Copy, Debug, PartialEq, Eq)]
pub enum Home {
    /// Never swapped in.
    Never,
    /// In a page, with so many words.
    Stored {
        page: u8,
        size: u8,
    },
    /// In a frame, perhaps with a page besides.
    Resident {
        frame: u8,
        page: Option<u8>,
        size: u8,
    },
    /// Deleted.
    Deleted,
}

/// What an entry holds: a segment by its class, brackets, size in words and serial.
#[derive(Clone, Copy, Debug, PartialEq, Eq)]
pub struct Alias {
    pub class: u8,
    pub r1: u8,
    pub r2: u8,
    pub r3: u8,
    pub size: u8,
    pub serial: u8,
}

/// The bits of a word from bit `from` on, as many as make up numbers below `below`.
fn field(word: u64, from: u32, below: u64) -> u8
    requires from { from < 64 }
    requires below { (1 ≤ below) × (below ≤ 256) }
    ensures { result ≡ word / 2 ^ from % below }
{
    ((word >> from) % below) as u8
}

/// A home word: the state in bits 0 and 1, the frame from bit 8, the page plus one or 0 from bit 16, the size
/// from bit 24.
fn home_word(state: u64, frame: u8, page_code: u8, size: u8) -> u64
    requires { state < 4 }
    ensures { result ≡ home_word state frame page_code size }
{
    state + ((frame as u64) << 8) + ((page_code as u64) << 16) + ((size as u64) << 24)
}

/// The size is from 1 to 64.
fn is_size(size: u8) -> bool
    ensures { result ≡ size_in_range size }
{
    1 <= size && size <= SIZE_LIMIT
}

/// Whether the home has a spelling: frame below 16, page below 32, size from 1 to 64.
fn home_has_spelling(home: &Home) -> bool
    ensures { result ≡ home_in_range home.now }
{
    match *home {
        Home::Never | Home::Deleted => true,
        Home::Stored { page, size } => page < PAGE_LIMIT && is_size(size),
        Home::Resident { frame, page, size } => {
            frame < FRAME_LIMIT && page.is_none_or(|page| page < PAGE_LIMIT) && is_size(size)
        }
    }
}

/// The word that spells the home.
pub fn pack_home(home: &Home) -> u64
    requires { home_in_range home.now ≡ true }
    ensures { result ≡ pack_home home.now }
{
    match *home {
        Home::Never => 0,
        Home::Stored { page, size } => home_word(1, 0, page + 1, size),
        Home::Resident { frame, page, size } => {
            let page_code = match page {
                None => 0,
                Some(page) => page + 1,
            };
            home_word(2, frame, page_code, size)
        }
        Home::Deleted => 3,
    }
}

/// The home that the fields of a word read as.
fn read_home(word: u64) -> Home
    ensures { result ≡ home_as_read word }
{
    let frame = field(word, 8, 256);
    let page_code = field(word, 16, 256);
    let size = field(word, 24, 256);
    match field(word, 0, 4) {
        0 => Home::Never,
        1 => Home::Stored {
            page: page_code.saturating_sub(1),
            size,
        },
        2 => Home::Resident {
            frame,
            page: page_code.checked_sub(1),
            size,
        },
        _ => Home::Deleted,
    }
}

/// The home that the word spells, and None exactly where it spells none.
pub fn unpack_home(word: u64) -> Option<Home>
    ensures value { result ≡ unpack_home word }
    ensures spelling { (home : Home) → (result ≡ Some home) ↔ SpellsHome home word }
    ensures none { IsNone result ↔ ((home : Home) → SpellsHome home word → ⊥) }
{
    let home = read_home(word);
    if home_has_spelling(&home) && pack_home(&home) == word {
        Some(home)
    } else {
        None
    }
}

/// Whether the alias has a spelling: class below 16, brackets up to 7, size from 1 to 64, serial below 64.
fn alias_has_spelling(alias: &Alias) -> bool
    ensures { result ≡ alias_in_range alias.now }
{
    alias.class < CLASS_LIMIT
        && alias.r1 <= 7
        && alias.r2 <= 7
        && alias.r3 <= 7
        && is_size(alias.size)
        && alias.serial < SERIAL_LIMIT
}

/// The word of an alias: 1, the class from bit 8, the brackets from bits 16, 20 and 24, the size from bit 32,
/// the serial from bit 40.
fn pack_entry(alias: &Alias) -> u64
    ensures { result ≡ pack_entry alias.now }
{
    1 + ((alias.class as u64) << 8)
        + ((alias.r1 as u64) << 16)
        + ((alias.r2 as u64) << 20)
        + ((alias.r3 as u64) << 24)
        + ((alias.size as u64) << 32)
        + ((alias.serial as u64) << 40)
}

/// The word that spells the entry, 0 for the empty one.
pub fn pack_alias(alias: Option<&Alias>) -> u64
    requires { entry_in_range (option_map (λ a. a.now) alias) ≡ true }
    ensures { result ≡ pack_alias (option_map (λ a. a.now) alias.entry) }
{
    match alias {
        None => 0,
        Some(alias) => pack_entry(alias),
    }
}

/// The alias that the fields of a word read as.
fn read_alias(word: u64) -> Alias
    ensures { result ≡ alias_read word }
{
    Alias {
        class: field(word, 8, 256),
        r1: field(word, 16, 8),
        r2: field(word, 20, 8),
        r3: field(word, 24, 8),
        size: field(word, 32, 256),
        serial: field(word, 40, 256),
    }
}

/// The entry that the word spells, empty or with an alias; the outer None comes exactly where it spells no entry.
pub fn unpack_alias(word: u64) -> Option<Option<Alias>>
    ensures value { result ≡ unpack_alias word }
    ensures spelling { (entry : Option Alias) → (result ≡ Some entry) ↔ SpellsEntry entry word }
    ensures none { IsNone result ↔ ((entry : Option Alias) → SpellsEntry entry word → ⊥) }
{
    if word == 0 {
        return Some(None);
    }
    let alias = read_alias(word);
    if alias_has_spelling(&alias) && pack_entry(&alias) == word {
        Some(Some(alias))
    } else {
        None
    }
}
