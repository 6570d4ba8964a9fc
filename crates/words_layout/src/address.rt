//! Addresses of words. Each class has 34,869 words, one class after the other; within a class each kind of
//! word has its offset. What a frame, a page or a segment holds stands among the words of its own class;
//! the components of an eventcount alone stand each among the words of the signalling class.

ghost use Rattle.std.specs.Prelude.{◌≡◌, ◌<◌, ◌+◌, ◌*◌};
ghost use Rattle.words_layout.specs.Sizes.{class_words, entry_count, most_classes, most_frames, most_pages, most_words};
ghost use Rattle.words_layout.specs.Limits.{IsIdentity};
ghost use Rattle.words_layout.specs.Words.{address, class_of, OfClass, OfSegment, Started, Tickets, Finished, Places, ComponentOf, SequencerOf, Guarded, NextSerial, HomeOf, WritesOf, EntryOf, FrameTenant, FrameWord, PageTenant, PageWord};

use crate::limits::{CLASS_WORDS, SIZE_LIMIT};
use crate::segment::{SegId, seg_number};

/// Where a word stands.
#[derive(Clone, Copy, Debug, PartialEq, Eq)]
pub struct Addr(pub u32);

/// How many words a segment has of its own: home, count of writes, one that isn't used, sequencer, the three of
/// its turns, and eight entries.
const SEG_WORDS: u32 = 15;

/// A frame or a page has its tenant and its words.
const FRAME_WORDS: u32 = 1 + SIZE_LIMIT as u32;

/// How many numbers of segments there are.
const SEG_COUNT: u32 = 1024;

const CONSOLE: u32 = 3;

const NEXT_SERIAL: u32 = 4;

const HOME: u32 = 5;

const WRITES: u32 = 6;

const SEQUENCER: u32 = 8;

const SEG_STARTED: u32 = 9;

const ENTRIES: u32 = 12;

const FRAMES: u32 = 15_365;

const PAGES: u32 = 16_405;

const COMPONENTS: u32 = 18_485;

/// The class of a word.
pub fn class_of(addr: Addr) -> u8
    requires { addr.0 < class_words * most_classes }
    ensures { result ≡ class_of addr.0 }
{
    (addr.0 / CLASS_WORDS) as u8
}

/// The word at an offset of a class.
fn at_offset(class: u8, offset: u32) -> Addr
    requires class { class < most_classes }
    requires offset { offset < class_words }
    ensures { result.0 ≡ class_words * class + offset }
{
    Addr(CLASS_WORDS * class as u32 + offset)
}

/// The word at an offset of a segment's own words.
fn at_segment(class: u8, seg: SegId, offset: u32) -> Addr
    requires class { class < most_classes }
    requires seg { IsIdentity seg }
    requires offset { offset < 20 }
    ensures { result.0 ≡ class_words * class + (offset + 15 * (64 * seg.mentor + seg.serial)) }
{
    at_offset(class, offset + SEG_WORDS * seg_number(seg))
}

/// Turns of the class started.
pub fn started_addr(class: u8) -> Addr
    requires { class < most_classes }
    ensures { result.0 ≡ address class (Started OfClass) }
{
    at_offset(class, 0)
}

/// Turn tickets of the class.
pub fn ticket_addr(class: u8) -> Addr
    requires { class < most_classes }
    ensures { result.0 ≡ address class (Tickets OfClass) }
{
    at_offset(class, 1)
}

/// Turns of the class finished.
pub fn finished_addr(class: u8) -> Addr
    requires { class < most_classes }
    ensures { result.0 ≡ address class (Finished OfClass) }
{
    at_offset(class, 2)
}

/// Console places of the class used.
pub fn console_addr(class: u8) -> Addr
    requires { class < most_classes }
    ensures { result.0 ≡ address class Places }
{
    at_offset(class, CONSOLE)
}

/// The next serial under mentors of the class.
pub fn serial_addr(class: u8) -> Addr
    requires { class < most_classes }
    ensures { result.0 ≡ address class (Guarded NextSerial) }
{
    at_offset(class, NEXT_SERIAL)
}

/// The home of a segment of the class.
pub fn home_addr(class: u8, seg: SegId) -> Addr
    requires class { class < most_classes }
    requires seg { IsIdentity seg }
    ensures { result.0 ≡ address class (Guarded (HomeOf seg)) }
{
    at_segment(class, seg, HOME)
}

/// The count of writes of a segment of the class.
pub fn writes_addr(class: u8, seg: SegId) -> Addr
    requires class { class < most_classes }
    requires seg { IsIdentity seg }
    ensures { result.0 ≡ address class (Guarded (WritesOf seg)) }
{
    at_segment(class, seg, WRITES)
}

/// The sequencer of a segment of the class.
pub fn sequencer_addr(class: u8, seg: SegId) -> Addr
    requires class { class < most_classes }
    requires seg { IsIdentity seg }
    ensures { result.0 ≡ address class (SequencerOf seg) }
{
    at_segment(class, seg, SEQUENCER)
}

/// The component in class `class` of the eventcount of a segment of class `of`.
pub fn component_addr(class: u8, of: u8, seg: SegId) -> Addr
    requires class { class < most_classes }
    requires of { of < most_classes }
    requires seg { IsIdentity seg }
    ensures { result.0 ≡ address class (ComponentOf of seg) }
{
    at_offset(class, COMPONENTS + SEG_COUNT * of as u32 + seg_number(seg))
}

/// Turns of a segment of the class started.
pub fn seg_started_addr(class: u8, seg: SegId) -> Addr
    requires class { class < most_classes }
    requires seg { IsIdentity seg }
    ensures { result.0 ≡ address class (Started (OfSegment seg)) }
{
    at_segment(class, seg, SEG_STARTED)
}

/// Turn tickets of a segment of the class.
pub fn seg_ticket_addr(class: u8, seg: SegId) -> Addr
    requires class { class < most_classes }
    requires seg { IsIdentity seg }
    ensures { result.0 ≡ address class (Tickets (OfSegment seg)) }
{
    at_segment(class, seg, SEG_STARTED + 1)
}

/// Turns of a segment of the class finished.
pub fn seg_finished_addr(class: u8, seg: SegId) -> Addr
    requires class { class < most_classes }
    requires seg { IsIdentity seg }
    ensures { result.0 ≡ address class (Finished (OfSegment seg)) }
{
    at_segment(class, seg, SEG_STARTED + 2)
}

/// An entry, 0 to 7, of a segment of the class.
pub fn entry_addr(class: u8, seg: SegId, entry: u8) -> Addr
    requires class { class < most_classes }
    requires seg { IsIdentity seg }
    requires entry { entry < entry_count }
    ensures { result.0 ≡ address class (Guarded (EntryOf seg entry)) }
{
    at_segment(class, seg, ENTRIES + entry as u32)
}

/// The tenant of a frame of the class: 0 for none, else the number of its segment plus one.
pub fn frame_tenant_addr(class: u8, frame: u8) -> Addr
    requires class { class < most_classes }
    requires frame { frame < most_frames }
    ensures { result.0 ≡ address class (Guarded (FrameTenant frame)) }
{
    at_offset(class, FRAMES + FRAME_WORDS * frame as u32)
}

/// A word of a frame of the class.
pub fn frame_word_addr(class: u8, frame: u8, place: u8) -> Addr
    requires class { class < most_classes }
    requires frame { frame < most_frames }
    requires place { place < most_words }
    ensures { result.0 ≡ address class (Guarded (FrameWord frame place)) }
{
    at_offset(
        class,
        FRAMES + FRAME_WORDS * frame as u32 + 1 + place as u32,
    )
}

/// The tenant of a page of the class: 0 for none, else the number of its segment plus one.
pub fn page_tenant_addr(class: u8, page: u8) -> Addr
    requires class { class < most_classes }
    requires page { page < most_pages }
    ensures { result.0 ≡ address class (Guarded (PageTenant page)) }
{
    at_offset(class, PAGES + FRAME_WORDS * page as u32)
}

/// A word of a page of the class.
pub fn page_word_addr(class: u8, page: u8, place: u8) -> Addr
    requires class { class < most_classes }
    requires page { page < most_pages }
    requires place { place < most_words }
    ensures { result.0 ≡ address class (Guarded (PageWord page place)) }
{
    at_offset(class, PAGES + FRAME_WORDS * page as u32 + 1 + place as u32)
}
