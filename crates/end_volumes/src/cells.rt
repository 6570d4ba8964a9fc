//! What is read of a cell off the words.

ghost use Rattle.std.specs.Prelude.{◌≡◌, ◌<◌, ◌≤◌, ◌+◌, ◌*◌, true, length, option_map, IfSome};
ghost use Rattle.words_layout.specs.Sizes.{class_words, entry_count, most_classes, most_words};
ghost use Rattle.words_layout.specs.Words.{Word, address, HomeOf};
ghost use Rattle.words_layout.specs.Limits.{IsIdentity, word_in_limits};
ghost use Rattle.words_layout.specs.Coding.{home_of};
ghost use Rattle.words_layout.specs.Named.{word_in, words_in};
ghost use Rattle.gate_parts.specs.Taken.{IsHome};
ghost use Rattle.class_model.specs.Config.{classes};
ghost use Rattle.machine.specs.Banks.{machine_of};
ghost use Rattle.end_volumes.specs.After.{IsEntry, IsNamed, IsPage, page_of, page_words, tree_of_words};

use gate_parts::{entry_taken, home_taken};
use machine::Machine;
use policy::in_table;
use words_layout::{
    Addr, Alias, Home, PlainWords, SegId, address_laws, entry_addr, home_addr, page_word_addr,
};

/// A class is one of 16, and the words of a machine have those of each of its classes.
fn class_law(machine: &Machine<PlainWords>, class: u8)
    requires { class < classes machine.now.shared }
    ensures few { class < most_classes }
    ensures there { class_words * class + class_words ≤ length machine.now.words }
{
    machine.plain_law();
    machine.shared().table().table_law();
}

/// The word of a class at an address.
fn load(machine: &Machine<PlainWords>, class: u8, addr: Addr) -> u64
    requires class { class < classes machine.now.shared }
    requires addr { IsNamed class addr.0 }
    ensures { (word : Word) → word_in_limits word ≡ true → addr.0 ≡ address class word → result ≡ word_in machine.now.words class word }
{
    address_laws();
    class_law(machine, class);
    machine.words().word(addr)
}

/// What an entry of a cell holds.
pub fn entry_at(machine: &Machine<PlainWords>, class: u8, seg: SegId, entry: u8) -> Option<Alias>
    requires class { class < classes machine.now.shared }
    requires seg { IsIdentity seg }
    requires entry { entry < entry_count }
    ensures value { result ≡ (tree_of_words (machine_of machine.now)).entry class seg entry }
    ensures range { IfSome result IsEntry }
{
    class_law(machine, class);
    in_table(
        machine.shared().table(),
        entry_taken(load(machine, class, entry_addr(class, seg, entry))),
    )
}

/// The home of a cell.
fn home_at(machine: &Machine<PlainWords>, class: u8, seg: SegId) -> Home
    requires class { class < classes machine.now.shared }
    requires seg { IsIdentity seg }
    ensures value { result ≡ home_of ((words_in machine.now.words class).guarded (HomeOf seg)) }
    ensures range { IsHome result }
{
    class_law(machine, class);
    home_taken(load(machine, class, home_addr(class, seg)))
}

/// The page that a home names, and how many words it tells.
fn page_of(home: &Home) -> Option<(u8, u8)>
    requires { IsHome home.now }
    ensures value { result ≡ page_of home.now }
    ensures range { IfSome result IsPage }
{
    match *home {
        Home::Stored { page, size } => Some((page, size)),
        Home::Resident { page, size, .. } => page.map(|page| (page, size)),
        _ => None,
    }
}

/// The words of a page, so many of them.
fn page_words(machine: &Machine<PlainWords>, class: u8, page: u8, size: u8) -> &[u64]
    requires class { class < classes machine.now.shared }
    requires page { IsPage (page, size) }
    ensures { result.now ≡ page_words (words_in machine.now.words class).guarded (page, size) }
{
    class_law(machine, class);
    let first = page_word_addr(class, page, 0).0 as usize;
    &machine.words().as_slice()[first..first + size as usize]
}

/// The words of the page of a cell, where its home names one; at most 64.
pub fn stored_at(machine: &Machine<PlainWords>, class: u8, seg: SegId) -> Option<&[u64]>
    requires class { class < classes machine.now.shared }
    requires seg { IsIdentity seg }
    ensures value { option_map (λ w. w.now) result ≡ (tree_of_words (machine_of machine.now)).stored class seg }
    ensures few { IfSome result (λ w. length w.now ≤ most_words) }
{
    match page_of(&home_at(machine, class, seg)) {
        Some((page, size)) => Some(page_words(machine, class, page, size)),
        None => None,
    }
}
