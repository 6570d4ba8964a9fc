//! Images, and the fault of each.

ghost use Rattle.std.specs.Prelude.{IfOk};
ghost use Rattle.volume_image.specs.Images.{IsMadeFor};

use arrayvec::ArrayString;
use labels::{ClassTable, Label};
use rings::Brackets;
use std::alloc::Global;
use std::test::Fail;
use volume_image::{Image, SegRecord, Volume, VolumeError, read_volume, write_volume};
use words_layout::SegId;

/// Two classes and a record, in format 1.
const ONE: [u8; 42] = [
    b'G', b'E', b'M', b'V', b'O', b'L', 1, 0, 2, 0, 0, 0, 0, 0, 15, 0, 0, 0, 0, 1, 0, 0, 0, 0, 15,
    0, 0, 0, 0, 0, 1, 0, 1, 1, 7, 7, 7, 2, 0, 0, 0, 0,
];

/// The same in format 2.
const TWO: [u8; 51] = [
    b'G', b'E', b'M', b'V', b'O', b'L', 2, 0, 2, 3, b'l', b'o', b'w', 0, 0, 0, 0, 0, 15, 0, 0, 0,
    0, 4, b'h', b'i', b'g', b'h', 1, 0, 0, 0, 0, 15, 0, 0, 0, 0, 0, 1, 0, 1, 1, 7, 7, 7, 2, 0, 0,
    0, 0,
];

/// Two places with the bytes that are put there, and the fault's offset and code. Zeros: it is read.
type Case = (usize, u8, usize, u8, u32, u8);

const CASES_ONE: [Case; 27] = [
    (0, b'g', 6, 3, 0, 2),
    (6, 0, 7, 1, 6, 3),
    (6, 3, 7, 1, 6, 3),
    (7, 1, 8, 3, 7, 4),
    (8, 3, 9, 16, 8, 5),
    (9, 16, 10, 1, 9, 6),
    (14, 16, 9, 1, 9, 6),
    (24, 14, 24, 14, 19, 7),
    (28, 1, 31, 9, 19, 7),
    (31, 2, 33, 2, 31, 9),
    (31, 0, 32, 32, 31, 9),
    (31, 0, 32, 31, 0, 0),
    (31, 0, 32, 0, 31, 9),
    (33, 2, 34, 8, 33, 9),
    (31, 1, 33, 0, 33, 11),
    (34, 8, 36, 8, 34, 9),
    (35, 6, 37, 0, 34, 9),
    (36, 8, 37, 0, 34, 9),
    (37, 0, 38, 2, 37, 9),
    (37, 65, 38, 2, 37, 9),
    (38, 2, 40, 8, 38, 9),
    (39, 32, 40, 8, 38, 9),
    (38, 1, 40, 8, 38, 10),
    (39, 1, 40, 8, 38, 10),
    (40, 8, 41, 2, 40, 9),
    (41, 2, 30, 0, 31, 12),
    (41, 2, 37, 64, 41, 9),
];

const CASES_TWO: [Case; 12] = [
    (8, 1, 9, 4, 8, 5),
    (9, 4, 10, b'x', 9, 13),
    (10, b'x', 13, 16, 10, 13),
    (23, 3, 24, b'x', 23, 13),
    (13, 16, 14, 1, 13, 6),
    (28, 2, 38, 1, 28, 7),
    (41, 64, 42, 2, 40, 9),
    (41, 63, 46, 64, 0, 0),
    (38, 1, 50, 1, 51, 1),
    (39, 2, 50, 0, 51, 1),
    (50, 1, 46, 64, 51, 1),
    (6, 1, 6, 1, 9, 7),
];

fn table_of(alloc: Global) -> Result<ClassTable, Fail> {
    let mut entries = Vec::new(alloc);
    for (name, text) in [("low", "0{}/15{}"), ("high", "1{}/15{}")] {
        let name: ArrayString<16> = ArrayString::from(name).ok().ok_or("a name")?;
        let label = Label::parse(text).ok().ok_or("a label")?;
        entries.push((name, label))?;
    }
    if entries.is_empty() {
        return Err("no entry")?;
    }
    Ok(ClassTable::new(entries).ok().ok_or("a table")?)
}

/// The offset and the code of the fault. Zeros where the bytes are read.
fn fault_of(alloc: Global, bytes: &[u8]) -> Result<(u32, u8), Fail> {
    if bytes.len() > 1000 {
        return Err("long")?;
    }
    match read_volume(alloc, bytes, &table_of(alloc)?) {
        Ok(_) => Ok((0, 0)),
        Err(VolumeError::Fault { offset, code }) => Ok((offset, code)),
        Err(VolumeError::NoMemory) => Err("memory")?,
    }
}

/// The fault of an image with the bytes of a case.
fn fault_with(alloc: Global, image: &[u8], case: Case) -> Result<(u32, u8), Fail> {
    let mut bytes = Vec::from_slice(alloc, image)?;
    let (place, byte, other, value, _, _) = case;
    if place >= bytes.len() || other >= bytes.len() {
        return Err("a place")?;
    }
    bytes[other] = value;
    bytes[place] = byte;
    fault_of(alloc, bytes.as_slice())
}

#[test]
fn faults_of_format_1(rt: HostRuntime) -> Result<(), Fail> {
    for case in CASES_ONE {
        assert_eq!(rt;
            fault_with(rt.alloc(), &ONE, case)?,
            (case.4, case.5),
            "{} {}",
            case.0,
            case.1
        );
    }
    Ok(())
}

#[test]
fn faults_of_format_2(rt: HostRuntime) -> Result<(), Fail> {
    for case in CASES_TWO {
        assert_eq!(rt;
            fault_with(rt.alloc(), &TWO, case)?,
            (case.4, case.5),
            "{} {}",
            case.0,
            case.1
        );
    }
    Ok(())
}

#[test]
fn cuts_and_more(rt: HostRuntime) -> Result<(), Fail> {
    for len in 0..TWO.len() {
        assert_eq!(rt; fault_of(rt.alloc(), &TWO[..len])?, (len as u32, 1));
    }
    let mut bytes = Vec::from_slice(rt.alloc(), &ONE)?;
    bytes.push(0)?;
    assert_eq!(rt; fault_of(rt.alloc(), bytes.as_slice())?, (42, 12));
    bytes.truncate(42);
    bytes.extend_from_slice(&ONE[31..])?;
    assert_eq!(rt; fault_of(rt.alloc(), bytes.as_slice())?, (42, 12));
    if bytes.len() > 32 {
        bytes[30] = 2;
    }
    assert_eq!(rt; fault_of(rt.alloc(), bytes.as_slice())?, (42, 8));
    Ok(())
}

/// What the bytes are written as, once they were read.
fn again(alloc: Global, bytes: &[u8]) -> Result<Vec<u8>, Fail> {
    if bytes.len() > 1000 {
        return Err("long")?;
    }
    let table = table_of(alloc)?;
    match read_volume(alloc, bytes, &table) {
        Ok(volume) => Ok(write_volume(alloc, &volume, &table)?),
        Err(_) => Err("refused")?,
    }
}

/// The second image with two kept words.
fn with_words(alloc: Global) -> Result<Vec<u8>, Fail> {
    let mut bytes = Vec::from_slice(alloc, &TWO[..50])?;
    bytes.extend_from_slice(&[1, 0, 0, 0, 0, 0, 0, 0, 5])?;
    bytes.extend_from_slice(&[255, 0, 0, 0, 0, 0, 1, 2])?;
    Ok(bytes)
}

#[test]
fn kept_words(rt: HostRuntime) -> Result<(), Fail> {
    let bytes = with_words(rt.alloc())?;
    let table = table_of(rt.alloc())?;
    assert_eq!(rt;
        again(rt.alloc(), bytes.as_slice())?.as_slice(),
        bytes.as_slice()
    );
    if bytes.len() > 1000 {
        return Err("long")?;
    }
    let volume = match read_volume(rt.alloc(), bytes.as_slice(), &table) {
        Ok(volume) => volume,
        Err(_) => Err("refused")?,
    };
    let kept = volume
        .list()
        .iter()
        .find_map(|r| r.kept.as_ref())
        .ok_or("words")?;
    assert_eq!(rt; kept.as_slice(), [5, 0xFF00_0000_0000_0102].as_slice());
    Ok(())
}

#[test]
fn written_again(rt: HostRuntime) -> Result<(), Fail> {
    assert_eq!(rt; again(rt.alloc(), &ONE)?.as_slice(), TWO.as_slice());
    assert_eq!(rt; again(rt.alloc(), &TWO)?.as_slice(), TWO.as_slice());
    Ok(())
}

/// The image of one record, drawn into taken room.
fn drawn(alloc: Global, table: &ClassTable) -> Result<Image, Fail>
    ensures { IfOk result (λ i. IsMadeFor table.now i) }
{
    table.table_law();
    let mut image = Image::new(alloc, table)?;
    let brackets = Brackets::new(7, 7, 7).ok_or("in order")?;
    let [seg, mentor] = [1, 0].map(|serial| SegId { mentor: 0, serial });
    image.start(table, 1);
    image.add(seg, 1, brackets, 2, mentor, 0, None);
    Ok(image)
}

#[test]
fn an_image(rt: HostRuntime) -> Result<(), Fail> {
    let table = table_of(rt.alloc())?;
    let mut image = drawn(rt.alloc(), &table)?;
    assert_eq!(rt; image.bytes(), TWO.as_slice());
    image.start(&table, 0);
    assert_eq!(rt; image.bytes().len(), 40);
    let volume = Volume::new(Vec::<SegRecord>::new(rt.alloc()));
    assert!(rt; volume.list().is_empty());
    Ok(())
}
