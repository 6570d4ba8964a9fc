//! What is read of a segment off the words.

ghost use Rattle.std.specs.Prelude.{◌≡◌, ◌<◌, true, is_some};
ghost use Rattle.std.specs.List.{list_any};
ghost use Rattle.words_layout.specs.Sizes.{entry_count, most_classes, most_frames, most_pages, most_words};
ghost use Rattle.words_layout.specs.Words.{Word, address, HomeOf, WritesOf, EntryOf, FrameWord, PageWord};
ghost use Rattle.words_layout.specs.Limits.{IsIdentity, word_in_limits};
ghost use Rattle.words_layout.specs.Coding.{home_of, entry_of};
ghost use Rattle.words_layout.specs.Named.{word_in, words_in};
ghost use Rattle.gate_parts.specs.Taken.{IsHome};
ghost use Rattle.class_model.specs.Config.{classes};
ghost use Rattle.machine.specs.Banks.{machine_of};
ghost use Rattle.report.specs.Reported.{word_count, entries_of};
ghost use Rattle.report.specs.Found.{HasClass, IsNamed, found_in, entry_in, is_counted};

use gate_parts::{entry_taken, home_taken};
use machine::Machine;
use policy::in_table;
use words_layout::{
    Addr, Alias, ENTRY_COUNT, Home, PlainWords, SegId, address_laws, component_addr, entry_addr,
    frame_word_addr, home_addr, page_word_addr, sequencer_addr, writes_addr,
};

/// What is read of a segment, but for its words and entries.
#[derive(Clone, Copy)]
pub struct Found {
    pub home: Home,
    pub writes: u64,
    pub count: u64,
    pub tickets: u64,
}

/// The words of a machine have those of each of its classes.
pub fn class_law(machine: &Machine<PlainWords>, class: u8)
    requires { class < classes machine.now.shared }
    ensures { HasClass machine.now.words class }
{
    machine.plain_law();
    machine.shared().table().table_law();
}

/// The word of a class at an address.
fn load(words: &PlainWords, class: u8, addr: Addr) -> u64
    requires class { HasClass words.now class }
    requires addr { IsNamed class addr.0 }
    ensures { (word : Word) → word_in_limits word ≡ true → addr.0 ≡ address class word → result ≡ word_in words.now class word }
{
    address_laws();
    words.word(addr)
}

/// The home of a segment.
fn home_at(words: &PlainWords, class: u8, seg: SegId) -> Home
    requires class { HasClass words.now class }
    requires seg { IsIdentity seg }
    ensures value { result ≡ home_of ((words_in words.now class).guarded (HomeOf seg)) }
    ensures range { IsHome result }
{
    home_taken(load(words, class, home_addr(class, seg)))
}

/// Its count of writes.
fn writes_at(words: &PlainWords, class: u8, seg: SegId) -> u64
    requires class { HasClass words.now class }
    requires seg { IsIdentity seg }
    ensures { result ≡ (words_in words.now class).guarded (WritesOf seg) }
{
    load(words, class, writes_addr(class, seg))
}

/// Its sequencer.
fn sequencer_at(words: &PlainWords, class: u8, seg: SegId) -> u64
    requires class { HasClass words.now class }
    requires seg { IsIdentity seg }
    ensures { result ≡ (words_in words.now class).sequencer seg }
{
    load(words, class, sequencer_addr(class, seg))
}

/// The component in a class of the eventcount of a segment of another.
fn component_at(words: &PlainWords, class: u8, of: u8, seg: SegId) -> u64
    requires class { HasClass words.now class }
    requires of { of < most_classes }
    requires seg { IsIdentity seg }
    ensures { result ≡ (words_in words.now class).component of seg }
{
    load(words, class, component_addr(class, of, seg))
}

/// What an entry of a segment spells.
fn spelled_entry(words: &PlainWords, class: u8, seg: SegId, entry: u8) -> Option<Alias>
    requires class { HasClass words.now class }
    requires seg { IsIdentity seg }
    requires entry { entry < entry_count }
    ensures { result ≡ entry_of ((words_in words.now class).guarded (EntryOf seg entry)) }
{
    entry_taken(load(words, class, entry_addr(class, seg, entry)))
}

/// A word of a frame.
pub fn frame_word(words: &PlainWords, class: u8, frame: u8, place: u8) -> u64
    requires class { HasClass words.now class }
    requires frame { frame < most_frames }
    requires place { place < most_words }
    ensures { result ≡ (words_in words.now class).guarded (FrameWord frame place) }
{
    load(words, class, frame_word_addr(class, frame, place))
}

/// A word of a page.
pub fn page_word(words: &PlainWords, class: u8, page: u8, place: u8) -> u64
    requires class { HasClass words.now class }
    requires page { page < most_pages }
    requires place { place < most_words }
    ensures { result ≡ (words_in words.now class).guarded (PageWord page place) }
{
    load(words, class, page_word_addr(class, page, place))
}

/// The eventcount of a segment: the sum of its components.
fn count_of(machine: &Machine<PlainWords>, class: u8, seg: SegId) -> u64
    requires class { class < classes machine.now.shared }
    requires seg { IsIdentity seg }
    ensures { result ≡ word_count (machine_of machine.now) class seg }
{
    class_law(machine, class);
    let table = machine.shared().table();
    let mut sum = 0u64;
    for low in 0..table.count() {
        class_law(machine, low);
        if table.below(low, class) {
            sum = sum.wrapping_add(component_at(machine.words(), low, class, seg));
        }
    }
    sum
}

/// What is read of a segment.
pub fn find_segment(machine: &Machine<PlainWords>, class: u8, seg: SegId) -> Found
    requires class { class < classes machine.now.shared }
    requires seg { IsIdentity seg }
    ensures found { result ≡ found_in machine.now class seg }
    ensures home { IsHome result.home }
{
    class_law(machine, class);
    let words = machine.words();
    Found {
        home: home_at(words, class, seg),
        writes: writes_at(words, class, seg),
        count: count_of(machine, class, seg),
        tickets: sequencer_at(words, class, seg),
    }
}

/// An entry of a segment.
pub fn find_entry(machine: &Machine<PlainWords>, class: u8, seg: SegId, entry: u8) -> Option<Alias>
    requires class { class < classes machine.now.shared }
    requires seg { IsIdentity seg }
    requires entry { entry < entry_count }
    ensures { result ≡ entry_in machine.now class seg entry }
{
    class_law(machine, class);
    in_table(
        machine.shared().table(),
        spelled_entry(machine.words(), class, seg, entry),
    )
}

/// Whether its home isn't Never, or one of its three counts isn't 0.
pub fn is_counted(found: &Found) -> bool
    ensures { result ≡ is_counted found.now }
{
    let touched = match found.home {
        Home::Never => false,
        _ => true,
    };
    touched || found.writes > 0 || found.count > 0 || found.tickets > 0
}

/// Whether it has an entry.
pub fn has_entry(machine: &Machine<PlainWords>, class: u8, seg: SegId) -> bool
    requires class { class < classes machine.now.shared }
    requires seg { IsIdentity seg }
    ensures { result ≡ list_any (λ e. is_some e) (entries_of machine.now.shared (words_in machine.now.words class).guarded seg) }
{
    for entry in 0..ENTRY_COUNT {
        if find_entry(machine, class, seg, entry).is_some() {
            return true;
        }
    }
    false
}
