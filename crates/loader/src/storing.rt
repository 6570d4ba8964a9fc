//! The words of records.

ghost use Rattle.std.specs.Prelude.{◌≡◌, ℕ, ◌+◌, ◌*◌, ◌/◌, ◌<◌, ◌≤◌, ◌∷◌, [], map, true, IfOk, count_by, if◌then◌else◌, length, max, slice_set, ◌==◌};
ghost use Rattle.std.specs.List.{All, filter};
ghost use Rattle.words_layout.specs.Sizes.{class_words, most_classes, most_pages, most_words};
ghost use Rattle.words_layout.specs.Segments.{seg_number};
ghost use Rattle.words_layout.specs.Words.{HomeOf, PageTenant};
ghost use Rattle.words_layout.specs.Coding.{pack_home};
ghost use Rattle.words_layout.specs.declared.coding.Home.TheVariants as H;
ghost use Rattle.words_layout.specs.Named.{words_in};
ghost use Rattle.class_model.specs.Config.{Config};
ghost use Rattle.class_model.specs.Run.{alias_of};
ghost use Rattle.machine.specs.Opening.{opening_words};
ghost use Rattle.loader.specs.Records.{is_kept};
ghost use Rattle.loader.specs.Stores.{IsStorable, AreStorable, kept_words, store_in, after_stores, serial_under, entry_store, word_stores, page_stores, pages_from, class_stores};

use std::alloc::{AllocError, Global};
use volume_image::SegRecord;
use words_layout::{
    Addr, Alias, Home, Op, PlainWords, WordPort, entry_addr, home_addr, pack_alias, pack_home,
    page_tenant_addr, page_word_addr, seg_number, serial_addr,
};

/// Stores a number in the word at an address of the layout.
fn store(words: &mut PlainWords, addr: Addr, number: u64)
    requires { addr.0 < class_words * (length words.old / class_words) }
    ensures { words.new ≡ slice_set words.old addr.0 number }
{
    let _nothing = words.perform(Op::Store(addr, number));
}

/// What the entry holds where the record stands.
fn alias_of(segment: &SegRecord) -> Alias
    ensures { result ≡ alias_of segment.now }
{
    Alias {
        class: segment.class,
        r1: segment.brackets.r1,
        r2: segment.brackets.r2,
        r3: segment.brackets.r3,
        size: segment.size,
        serial: segment.seg.serial,
    }
}

/// Stores where the record stands in its mentor.
fn store_entry(words: &mut PlainWords, segment: &SegRecord)
    requires few { length words.old / class_words ≤ most_classes }
    requires record { IsStorable (length words.old / class_words) segment.now }
    ensures { words.new ≡ after_stores words.old (entry_store segment.now ∷ []) }
{
    let addr = entry_addr(segment.seg.mentor, segment.mentor, segment.entry);
    let alias = alias_of(segment);
    store(words, addr, pack_alias(Some(&alias)));
}

/// Stores where each of the records stands in its mentor.
fn store_entries(words: &mut PlainWords, records: &[SegRecord])
    requires few { length words.old / class_words ≤ most_classes }
    requires records { All (IsStorable (length words.old / class_words)) records.now }
    ensures { words.new ≡ after_stores words.old (map entry_store records.now) }
{
    for segment in records {
        store_entry(words, segment);
    }
}

/// Stores the words of a page.
fn store_words(words: &mut PlainWords, class: u8, page: u8, kept: &[u64])
    requires few { length words.old / class_words ≤ most_classes }
    requires class { class < length words.old / class_words }
    requires page { page < most_pages }
    requires size { length kept.now ≤ most_words }
    ensures { words.new ≡ after_stores words.old (word_stores class page kept.now) }
{
    for place in 0..kept.len() {
        let addr = page_word_addr(class, page, place as u8);
        store(words, addr, kept[place]);
    }
}

/// Stores that the record's home is that page of the class.
fn store_home(words: &mut PlainWords, class: u8, page: u8, segment: &SegRecord)
    requires few { length words.old / class_words ≤ most_classes }
    requires class { class < length words.old / class_words }
    requires page { page < most_pages }
    requires record { IsStorable (length words.old / class_words) segment.now }
    ensures { words.new ≡ after_stores words.old (store_in class (HomeOf segment.now.seg) (pack_home (H.Stored page segment.now.size)) ∷ []) }
{
    let addr = home_addr(class, segment.seg);
    let home = Home::Stored {
        page,
        size: segment.size,
    };
    store(words, addr, pack_home(&home));
}

/// Stores that the record is the tenant of that page of the class.
fn store_tenant(words: &mut PlainWords, class: u8, page: u8, segment: &SegRecord)
    requires few { length words.old / class_words ≤ most_classes }
    requires class { class < length words.old / class_words }
    requires page { page < most_pages }
    requires record { IsStorable (length words.old / class_words) segment.now }
    ensures { words.new ≡ after_stores words.old (store_in class (PageTenant page) (seg_number segment.now.seg + 1) ∷ []) }
{
    let addr = page_tenant_addr(class, page);
    let number = seg_number(segment.seg);
    store(words, addr, number as u64 + 1);
}

/// Stores that the record is in that page of the class, and its words there.
fn store_page(words: &mut PlainWords, class: u8, page: u8, segment: &SegRecord, kept: &[u64])
    requires few { length words.old / class_words ≤ most_classes }
    requires class { class < length words.old / class_words }
    requires page { page < most_pages }
    requires record { IsStorable (length words.old / class_words) segment.now }
    requires words { kept_words segment.now ≡ kept.now }
    ensures { words.new ≡ after_stores words.old (page_stores class page segment.now) }
{
    store_home(words, class, page, segment);
    store_tenant(words, class, page, segment);
    store_words(words, class, page, kept);
}

/// Stores the record in that page of the class, where it is a kept one of the class, and answers the next page.
fn store_kept(words: &mut PlainWords, class: u8, page: u8, segment: &SegRecord) -> u8
    requires few { length words.old / class_words ≤ most_classes }
    requires class { class < length words.old / class_words }
    requires page { is_kept class segment.now ≡ true → page < most_pages }
    requires record { IsStorable (length words.old / class_words) segment.now }
    ensures page { result ≡ page + (if is_kept class segment.now then 1 else 0) }
    ensures words { words.new ≡ after_stores words.old (if is_kept class segment.now then page_stores class page segment.now else []) }
{
    if segment.class != class {
        return page;
    }
    match &segment.kept {
        None => page,
        Some(kept) => {
            store_page(words, class, page, segment, kept.as_slice());
            page + 1
        }
    }
}

/// Stores the kept records of the class in its pages, in their order.
fn store_pages(words: &mut PlainWords, class: u8, records: &[SegRecord])
    requires few { length words.old / class_words ≤ most_classes }
    requires class { class < length words.old / class_words }
    requires records { All (IsStorable (length words.old / class_words)) records.now }
    requires pages { count_by (is_kept class) records.now ≤ most_pages }
    ensures { words.new ≡ after_stores words.old (pages_from class 0 (filter (is_kept class) records.now)) }
{
    let mut page = 0;
    for segment in records {
        page = store_kept(words, class, page, segment);
    }
}

/// The next serial of the class after one more record.
fn serial_after(class: u8, next: u64, segment: &SegRecord) -> u64
    ensures { result ≡ (if segment.now.seg.mentor == class then max next (segment.now.seg.serial + 1) else next) }
{
    if segment.seg.mentor == class {
        next.max(segment.seg.serial as u64 + 1)
    } else {
        next
    }
}

/// One more than the greatest serial of the records under mentors of the class, the root's among them, or 0.
fn next_serial(class: u8, records: &[SegRecord]) -> u64
    ensures { result ≡ serial_under class records.now }
{
    let mut next = if class == 0 { 1 } else { 0 };
    for segment in records {
        next = serial_after(class, next, segment);
    }
    next
}

/// Stores the next serial of the class, and its kept records in its pages.
fn store_class(words: &mut PlainWords, class: u8, records: &[SegRecord])
    requires few { length words.old / class_words ≤ most_classes }
    requires class { class < length words.old / class_words }
    requires records { All (IsStorable (length words.old / class_words)) records.now }
    requires pages { count_by (is_kept class) records.now ≤ most_pages }
    ensures { words.new ≡ after_stores words.old (class_stores records.now class) }
{
    store(words, serial_addr(class), next_serial(class, records));
    store_pages(words, class, records);
}

/// The words of so many classes at the opening of a configuration with these records.
pub fn words_with(
    alloc: Global,
    classes: u8,
    records: &[SegRecord],
) -> Result<PlainWords, AllocError>
    requires classes { (1 ≤ classes) × (classes ≤ most_classes) }
    requires records { AreStorable classes records.now }
    ensures words { IfOk result (λ w. (k : Config) → k.records ≡ records.now → (c : ℕ) → words_in w c ≡ opening_words k c) }
    ensures layout { IfOk result (λ w. length w / class_words ≡ classes) }
{
    let mut words = PlainWords::new(alloc, classes)?;
    for class in 0..classes {
        store_class(&mut words, class, records);
    }
    store_entries(&mut words, records);
    Ok(words)
}
