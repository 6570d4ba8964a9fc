//! The segments of a class.

ghost use Rattle.std.specs.Prelude.{◌≡◌, ◌<◌};
ghost use Rattle.words_layout.specs.Limits.{IsIdentity};
ghost use Rattle.words_layout.specs.Named.{words_in};
ghost use Rattle.words_layout.specs.Sizes.{entry_count, most_classes};
ghost use Rattle.gate_parts.specs.Taken.{IsHome};
ghost use Rattle.class_model.specs.Config.{classes};
ghost use Rattle.class_model.specs.Report.{segment_text, words_text};
ghost use Rattle.machine.specs.Banks.{machine_of};
ghost use Rattle.report.specs.Reported.{home_words, word_segment};
ghost use Rattle.report.specs.Found.{HasClass, found_in, entry_in};
ghost use Rattle.report.specs.Parts.{alias_text, entries_text, touched_text, mentor_text, segments_text};
ghost use Rattle.report.specs.Printing.{Prints};

use crate::pieces::{entry_line, frame_line, page_line, segment_line};
use crate::printing::{WriteFault, push_line};
use crate::reading::{Found, class_law, find_entry, find_segment, has_entry, is_counted};
use host_ports::Host;
use machine::Machine;
use words_layout::{ENTRY_COUNT, Home, PlainWords, SERIAL_LIMIT, SegId};

/// The words of a segment: those of its frame, or else of its page.
fn print_words<H: Host>(
    host: &mut H,
    words: &PlainWords,
    class: u8,
    home: &Home,
) -> Result<(), WriteFault>
    requires class { HasClass words.now class }
    requires home { IsHome home.now }
    ensures { Prints (H.ports host.old) (H.ports host.new) (words_text (home_words (words_in words.now class).guarded home.now)) result }
{
    match *home {
        Home::Resident { frame, size, .. } => {
            push_line(host, &frame_line(words, class, frame, size))
        }
        Home::Stored { page, size } => push_line(host, &page_line(words, class, page, size)),
        _ => Ok(()),
    }
}

fn print_entry<H: Host>(
    host: &mut H,
    machine: &Machine<PlainWords>,
    class: u8,
    seg: SegId,
    entry: u8,
) -> Result<(), WriteFault>
    requires class { class < classes machine.now.shared }
    requires seg { IsIdentity seg }
    requires entry { entry < entry_count }
    ensures { Prints (H.ports host.old) (H.ports host.new) (alias_text entry (entry_in machine.now class seg entry)) result }
{
    match find_entry(machine, class, seg, entry) {
        Some(alias) => push_line(host, &entry_line(entry, &alias)),
        None => Ok(()),
    }
}

fn print_entries<H: Host>(
    host: &mut H,
    machine: &Machine<PlainWords>,
    class: u8,
    seg: SegId,
) -> Result<(), WriteFault>
    requires class { class < classes machine.now.shared }
    requires seg { IsIdentity seg }
    ensures { Prints (H.ports host.old) (H.ports host.new) (entries_text machine.now class seg) result }
{
    for entry in 0..ENTRY_COUNT {
        print_entry(host, machine, class, seg, entry)?;
    }
    Ok(())
}

/// A segment with its words and entries.
fn print_segment<H: Host>(
    host: &mut H,
    machine: &Machine<PlainWords>,
    class: u8,
    seg: SegId,
    found: &Found,
) -> Result<(), WriteFault>
    requires class { class < classes machine.now.shared }
    requires seg { IsIdentity seg }
    requires found { found.now ≡ found_in machine.now class seg }
    requires home { IsHome found.now.home }
    ensures { Prints (H.ports host.old) (H.ports host.new) (segment_text (word_segment (machine_of machine.now) class seg)) result }
{
    class_law(machine, class);
    push_line(host, &segment_line(seg, found))?;
    print_words(host, machine.words(), class, &found.home)?;
    print_entries(host, machine, class, seg)
}

/// A segment, if it has been touched.
fn print_touched<H: Host>(
    host: &mut H,
    machine: &Machine<PlainWords>,
    class: u8,
    seg: SegId,
) -> Result<(), WriteFault>
    requires class { class < classes machine.now.shared }
    requires seg { IsIdentity seg }
    ensures { Prints (H.ports host.old) (H.ports host.new) (touched_text (machine_of machine.now) class seg) result }
{
    let found = find_segment(machine, class, seg);
    if is_counted(&found) || has_entry(machine, class, seg) {
        print_segment(host, machine, class, seg, &found)
    } else {
        Ok(())
    }
}

/// The touched segments with mentors of one class, by serial.
fn print_mentor<H: Host>(
    host: &mut H,
    machine: &Machine<PlainWords>,
    class: u8,
    mentor: u8,
) -> Result<(), WriteFault>
    requires class { class < classes machine.now.shared }
    requires mentor { mentor < most_classes }
    ensures { Prints (H.ports host.old) (H.ports host.new) (mentor_text (machine_of machine.now) class mentor) result }
{
    for serial in 0..SERIAL_LIMIT {
        print_touched(host, machine, class, SegId { mentor, serial })?;
    }
    Ok(())
}

/// The touched segments of a class, by mentor class and serial.
pub fn print_segments<H: Host>(
    host: &mut H,
    machine: &Machine<PlainWords>,
    class: u8,
) -> Result<(), WriteFault>
    requires { class < classes machine.now.shared }
    ensures { Prints (H.ports host.old) (H.ports host.new) (segments_text (machine_of machine.now) class) result }
{
    machine.shared().table().table_law();
    for mentor in 0..machine.shared().table().count() {
        print_mentor(host, machine, class, mentor)?;
    }
    Ok(())
}
