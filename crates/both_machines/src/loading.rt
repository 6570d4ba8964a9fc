//! What the loader makes of a configuration without records on two processors, and of one of three classes with two volumes.

ghost use Rattle.std.specs.Prelude.{◌≡◌, ◌≤◌, ◌&&◌, not, IfOk, length};
ghost use Rattle.script_asm.specs.Spelling.{max_text};
ghost use Rattle.config_text.specs.Valid.{IsValid};
ghost use Rattle.volume_image.specs.Valid.{IsVolume};
ghost use Rattle.loader.specs.Records.{AreVolumes, names_volume};

use config_text::{Config, read_config};
use loader::{LoadError, load_state, load_state_low, names_volume, opening_machine};
use machine::Machine;
use std::alloc::Global;
use std::test::Fail;
use volume_image::{Volume, read_volume};
use words_layout::PlainWords;

/// The high class has two processes on processor 0 and one on processor 1; the low class has one on processor 1.
const TEXT: &str =
    "gemkernel 1\nclasses 2\nclass low 0{}/15{} frames 2 pages 2 volume 0\nclass high 1{}/15{} frames 2 pages 2 volume 0\nprocessors 2\ncycle 0\nrounds 1\nquantum 1\nconsole 10\nscript 0\nhalt\nend\nscript 1\nset r2 5\nhalt\nend\nprocess 0 1 0 4\nprocess 1 1 0 5\nprocess 1 0 0 6\nprocess 0 1 1 7\nend\n";

/// Volume 1 has the classes low and mid, volume 2 the class high, which has one page. Mid and high have a process each.
const THREE: &str =
    "gemkernel 1\nclasses 3\nclass low 0{}/15{} frames 2 pages 2 volume 1\nclass mid 1{}/15{} frames 2 pages 2 volume 1\nclass high 2{}/15{} frames 2 pages 1 volume 2\nprocessors 1\ncycle 0\nrounds 1\nquantum 1\nconsole 10\nscript 1\nhalt\nend\nscript 2\nhalt\nend\nprocess 0 1 0 4\nprocess 0 2 1 4\nend\n";

/// What every volume of these classes begins with in format 1.
const HEADER: [u8; 39] = [
    b'G', b'E', b'M', b'V', b'O', b'L', 1, 0, 3, 0, 0, 0, 0, 0, 15, 0, 0, 0, 0, 1, 0, 0, 0, 0, 15,
    0, 0, 0, 0, 2, 0, 0, 0, 0, 15, 0, 0, 0, 0,
];

/// A segment of two words: its identity, class, mentor and entry, and the first of its words if they were kept.
type Line = (u8, u8, u8, u8, u8, u8, Option<u8>);

const FIRST: [Line; 3] = [
    (0, 1, 0, 0, 0, 0, Some(10)),
    (0, 2, 1, 0, 0, 1, Some(20)),
    (0, 5, 1, 0, 1, 3, Some(22)),
];

const SECOND: [Line; 3] = [
    (0, 6, 2, 0, 0, 2, Some(30)),
    (1, 0, 2, 0, 5, 7, None),
    (2, 0, 2, 1, 0, 0, None),
];

/// A volume, a place in it and the line that is put there, and the fault.
type Fault = (u8, usize, Line, (u8, u16, u8));

const FAULTS: [Fault; 8] = [
    (1, 1, (0, 2, 2, 0, 0, 1, None), (1, 1, 1)),
    (2, 0, (0, 5, 2, 0, 0, 2, None), (2, 0, 2)),
    (1, 2, (0, 5, 1, 0, 3, 3, None), (1, 2, 3)),
    (2, 1, (1, 0, 2, 0, 1, 7, None), (2, 1, 3)),
    (1, 1, (0, 2, 1, 0, 0, 0, None), (1, 1, 4)),
    (2, 1, (1, 0, 2, 0, 5, 7, Some(32)), (2, 1, 5)),
    (2, 1, (0, 7, 1, 0, 0, 4, None), (2, 1, 1)),
    (2, 0, (0, 2, 2, 0, 0, 1, None), (2, 0, 2)),
];

/// A word by its class and its place among those of the class, with its value among all words and among what is left of them
/// for the middle class. The next serial stands at 4, the home of segment u at 5 + 15 u and its entries from 12 + 15 u on, the
/// tenant of page g at 16,405 + 65 g and its words from 16,406 + 65 g on.
type Word = (u32, u32, u64, u64);

const EXPECTED: [Word; 20] = [
    (0, 4, 7, 7),
    (1, 4, 1, 1),
    (2, 4, 1, 0),
    // Entries of the root, of (0, 1), of (0, 5) and of (1, 0).
    (0, 12, 0x0102_0654_0001, 0x0102_0654_0001),
    (0, 12 + 1, 0x0202_0654_0101, 0x0202_0654_0101),
    (0, 12 + 2, 0x0602_0654_0201, 0x0602_0654_0201),
    (0, 12 + 3, 0, 0),
    (0, 12 + 15 + 3, 0x0502_0654_0101, 0x0502_0654_0101),
    (1, 12 + 15 * 5 + 7, 0x0002_0654_0201, 0x0002_0654_0201),
    (2, 12 + 15 * 64, 0x0002_0654_0201, 0),
    // Homes of (0, 1), (0, 2), (0, 5), (0, 6) and (1, 0).
    (0, 5 + 15, 0x0201_0001, 0x0201_0001),
    (1, 5 + 15 * 2, 0x0201_0001, 0x0201_0001),
    (1, 5 + 15 * 5, 0x0202_0001, 0x0202_0001),
    (2, 5 + 15 * 6, 0x0201_0001, 0),
    (2, 5 + 15 * 64, 0, 0),
    // Pages.
    (0, 16_405, 2, 2),
    (1, 16_405 + 65, 6, 6),
    (1, 16_406 + 65 + 1, 23, 23),
    (2, 16_405, 7, 0),
    (2, 16_406, 30, 0),
];

/// The script and the ring of the process of a slot.
fn process_at(
    machine: &Machine<PlainWords>,
    processor: u8,
    class: u8,
    slot: u8,
) -> Option<(u8, u8)> {
    if processor >= machine.processors() || class >= machine.shared().table().count() || slot >= 4 {
        return None;
    }
    let process = machine.virtual_processor(processor, class).slot(slot)?;
    Some((process.script(), process.ring().number()))
}

/// Whether a class has ended; None where there is no such class.
fn ended(machine: &Machine<PlainWords>, class: u8) -> Option<bool> {
    if class < machine.shared().table().count() {
        Some(machine.ended(class))
    } else {
        None
    }
}

/// The configuration of a text.
fn configuration(alloc: Global, text: &str) -> Result<Config, Fail>
    requires { length text.now ≤ max_text }
    ensures { IfOk result (λ k. IsValid k) }
{
    match read_config(alloc, text.as_bytes()) {
        Ok(config) => Ok(config),
        Err(_) => Err(Fail::from("a configuration")),
    }
}

fn two_classes(alloc: Global) -> Result<Config, Fail>
    ensures { IfOk result (λ k. IsValid k) }
{
    configuration(alloc, TEXT)
}

fn three_classes(alloc: Global) -> Result<Config, Fail>
    ensures { IfOk result (λ k. IsValid k) }
{
    configuration(alloc, THREE)
}

/// The machine of the first text.
fn opened(alloc: Global) -> Result<Machine<PlainWords>, Fail> {
    let config = two_classes(alloc)?;
    Ok(opening_machine(alloc, &config)?)
}

/// Appends the bytes of a segment with brackets 4 5 6.
fn put_line(bytes: &mut Vec<u8>, line: Line) -> Result<(), Fail> {
    bytes.extend_from_slice(&[line.0, line.1, line.2, 4, 5, 6, 2, line.3, line.4, line.5])?;
    match line.6 {
        None => bytes.push(0)?,
        Some(word) => {
            bytes.push(1)?;
            bytes.extend_from_slice(&u64::from(word).to_be_bytes())?;
            bytes.extend_from_slice(&(u64::from(word) + 1).to_be_bytes())?;
        }
    }
    Ok(())
}

/// The volume of three segments.
fn volume_of(alloc: Global, config: &Config, lines: [Line; 3]) -> Result<Volume, Fail>
    ensures { IfOk result (λ v. IsVolume config.now.table v) }
{
    let mut bytes = Vec::from_slice(alloc, &HEADER)?;
    bytes.extend_from_slice(&[0, 3])?;
    for line in lines {
        put_line(&mut bytes, line)?;
    }
    if bytes.len() > 1000 {
        return Err(Fail::from("long"));
    }
    match read_volume(alloc, bytes.as_slice(), &config.table) {
        Ok(volume) => Ok(volume),
        Err(_) => Err(Fail::from("a volume")),
    }
}

/// Whether the pools name just the volumes 1 and 2.
fn has_two(config: &Config) -> bool
    ensures { result ≡ (names_volume config.now 1 && names_volume config.now 2 && not (names_volume config.now 3) && not (names_volume config.now 4)) }
{
    names_volume(config, 1)
        && names_volume(config, 2)
        && !names_volume(config, 3)
        && !names_volume(config, 4)
}

/// Both volumes, where the configuration has just these.
fn both(
    alloc: Global,
    config: &Config,
    first: Volume,
    second: Volume,
) -> Result<Vec<(u8, Volume)>, Fail>
    requires first { IsVolume config.now.table first }
    requires second { IsVolume config.now.table second }
    ensures { IfOk result (λ v. AreVolumes config.now v.items) }
{
    if !has_two(config) {
        return Err(Fail::from("two volumes"));
    }
    let mut volumes = Vec::new(alloc);
    volumes.push((1, first))?;
    volumes.push((2, second))?;
    Ok(volumes)
}

/// What the text and these segments are loaded as, up to a class if there is one.
fn load(
    alloc: Global,
    first: [Line; 3],
    second: [Line; 3],
    view: Option<u8>,
) -> Result<Result<Machine<PlainWords>, LoadError>, Fail> {
    let config = three_classes(alloc)?;
    let first = volume_of(alloc, &config, first)?;
    let second = volume_of(alloc, &config, second)?;
    let volumes = both(alloc, &config, first, second)?;
    match view {
        Some(class) if class < config.table.count() => {
            Ok(load_state_low(alloc, &config, volumes.as_slice(), class))
        }
        _ => Ok(load_state(alloc, &config, volumes.as_slice())),
    }
}

/// The fault, if there is one.
fn fault_of(loaded: Result<Machine<PlainWords>, LoadError>) -> Option<(u8, u16, u8)> {
    match loaded {
        Err(LoadError::Fault { volume, item, code }) => Some((volume, item, code)),
        _ => None,
    }
}

/// Three segments, with one of them changed.
fn with_line(lines: [Line; 3], item: usize, line: Line) -> [Line; 3] {
    let mut changed = lines;
    if item < 3 {
        changed[item] = line;
    }
    changed
}

/// A slot by its processor, its class and its number, and the script and the ring of its process.
type Slot = (u8, u8, u8, Option<(u8, u8)>);

const SLOTS: [Slot; 9] = [
    (0, 0, 0, None),
    (0, 1, 0, Some((0, 4))),
    (0, 1, 1, Some((1, 7))),
    (0, 1, 2, None),
    (1, 0, 0, Some((0, 6))),
    (1, 0, 1, None),
    (1, 1, 0, Some((0, 5))),
    (1, 1, 1, None),
    (2, 0, 0, None),
];

/// Whether each slot has its process.
fn has_slots(machine: &Machine<PlainWords>, slots: &[Slot]) -> bool {
    for (processor, class, slot, process) in slots {
        if process_at(machine, *processor, *class, *slot) != *process {
            return false;
        }
    }
    true
}

#[test]
fn a_machine_at_the_opening(rt: HostRuntime) -> Result<(), Fail> {
    let machine = opened(rt.alloc())?;
    assert!(rt; has_slots(&machine, &SLOTS));
    let words = machine.words().as_slice();
    assert_eq!(rt; words.len(), 2 * 34_869);
    assert_eq!(rt; words.get(3), Some(&0));
    assert_eq!(rt; words.get(4), Some(&1));
    assert_eq!(rt; words.get(34_873), Some(&0));
    assert_eq!(rt; ended(&machine, 0), Some(false));
    assert_eq!(rt; ended(&machine, 1), Some(false));
    Ok(())
}

/// A volume with a line put in its place, where it is the one of this number.
fn changed(lines: [Line; 3], number: u8, at: &Fault) -> [Line; 3] {
    if number == at.0 {
        with_line(lines, at.1, at.2)
    } else {
        lines
    }
}

/// Whether the fault is found, whatever is seen of the volumes.
fn is_found(alloc: Global, at: &Fault) -> Result<bool, Fail> {
    for view in [None, Some(0)] {
        let first = changed(FIRST, 1, at);
        let second = changed(SECOND, 2, at);
        if fault_of(load(alloc, first, second, view)?) != Some(at.3) {
            return Ok(false);
        }
    }
    Ok(true)
}

/// Whether each fault is found.
fn are_found(alloc: Global, faults: &[Fault]) -> Result<bool, Fail> {
    for fault in faults {
        if !is_found(alloc, fault)? {
            return Ok(false);
        }
    }
    Ok(true)
}

#[test]
fn faults_of_records(rt: HostRuntime) -> Result<(), Fail> {
    assert!(rt; are_found(rt.alloc(), &FAULTS)?);
    Ok(())
}

/// The machine that the segments are loaded as, up to a class if there is one.
fn loaded(alloc: Global, view: Option<u8>) -> Result<Machine<PlainWords>, Fail> {
    match load(alloc, FIRST, SECOND, view)? {
        Ok(machine) => Ok(machine),
        Err(_) => Err(Fail::from("a machine")),
    }
}

/// The word at a place among those of a class.
fn word_at(machine: &Machine<PlainWords>, class: u32, place: u32) -> Option<u64> {
    let first = 34_869usize.checked_mul(class as usize)?;
    let index = first.checked_add(place as usize)?;
    machine.words().as_slice().get(index).copied()
}

/// The words that are expected.
fn expected() -> [Word; 20] {
    EXPECTED
}

/// Whether each word stands in its place, in the whole and in the part.
fn has_words(whole: &Machine<PlainWords>, part: &Machine<PlainWords>, words: &[Word]) -> bool {
    for (class, place, all, low) in words {
        if word_at(whole, *class, *place) != Some(*all)
            || word_at(part, *class, *place) != Some(*low)
        {
            return false;
        }
    }
    true
}

#[test]
fn records_in_their_places(rt: HostRuntime) -> Result<(), Fail> {
    let whole = loaded(rt.alloc(), None)?;
    let part = loaded(rt.alloc(), Some(1))?;
    let words = expected();
    assert!(rt; has_words(&whole, &part, &words));
    Ok(())
}

const OF_THE_WHOLE: [Slot; 2] = [(0, 1, 0, Some((0, 4))), (0, 2, 0, Some((1, 4)))];

const OF_THE_PART: [Slot; 2] = [(0, 1, 0, Some((0, 4))), (0, 2, 0, None)];

#[test]
fn processes_in_their_slots(rt: HostRuntime) -> Result<(), Fail> {
    let whole = loaded(rt.alloc(), None)?;
    assert!(rt; has_slots(&whole, &OF_THE_WHOLE));
    let part = loaded(rt.alloc(), Some(1))?;
    assert!(rt; has_slots(&part, &OF_THE_PART));
    Ok(())
}
