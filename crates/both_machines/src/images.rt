//! The volumes of a machine whose words are put there one by one, each byte written out.

ghost use Rattle.std.specs.Prelude.{◌≡◌, ◌≤◌, length, IfOk};
ghost use Rattle.config_text.specs.Valid.{IsValid};

use crate::sections::store;
use config_text::{Config, read_config};
use end_volumes::volume_after;
use loader::opening_machine;
use machine::{Machine, MachineParts};
use std::alloc::Global;
use std::test::Fail;
use volume_image::Image;
use words_layout::{Addr, PlainWords};

/// The classes low, mid and top are of volume 1, far is of volume 2, and bare of none.
const TEXT: &str =
    "gemkernel 1\nclasses 5\nclass low 0{}/15{} frames 2 pages 2 volume 1\nclass mid 1{}/15{} frames 2 pages 2 volume 1\nclass bare 2{}/15{} frames 2 pages 2 volume 0\nclass top 3{}/15{} frames 2 pages 2 volume 1\nclass far 4{}/15{} frames 2 pages 2 volume 2\nprocessors 1\ncycle 0\nrounds 1\nquantum 1\nconsole 10\nend\n";

/// A word by its class and its place among those of the class. Entries of segment u stand from 12 + 15 u on, its home at
/// 5 + 15 u, the words of frame f from 15,366 + 65 f on, and those of page g from 16,406 + 65 g on.
const WORDS: [(u32, u32, u64); 23] = [
    // In the root: (0, 5) of class 3, (0, 2) of class 2 and (0, 1) of class 0.
    (0, 12, 0x05_04_0321_0301),
    (0, 12 + 1, 0x02_01_0321_0201),
    (0, 12 + 7, 0x01_02_0321_0001),
    // In (0, 1): (0, 3) of class 0 and (0, 4) of class 1.
    (0, 12 + 15 + 2, 0x03_03_0321_0001),
    (0, 12 + 15 + 3, 0x04_01_0321_0101),
    // In (0, 4): (1, 9) of class 1 and (1, 0) of class 4.
    (1, 12 + 15 * 4 + 5, 0x09_40_0321_0101),
    (1, 12 + 15 * 4 + 6, 0x00_01_0321_0401),
    // In (1, 0): (4, 63) of class 4.
    (4, 12 + 15 * 64 + 3, 0x3f_01_0321_0401),
    // In (0, 2), which is of no volume: (2, 7) of class 3.
    (2, 12 + 15 * 2, 0x07_01_0321_0301),
    // In (0, 9), which stands nowhere: (0, 10) of class 0.
    (0, 12 + 15 * 9 + 4, 0x0a_01_0321_0001),
    // (0, 1) is in page 1.
    (0, 5 + 15, 0x02_02_00_01),
    (0, 16_406 + 65, 5),
    (0, 16_406 + 65 + 1, 0xff00_0000_0000_0102),
    // (0, 3) is in frame 0 and in page 0.
    (0, 5 + 15 * 3, 0x03_01_00_02),
    (0, 15_366, 90),
    (0, 15_366 + 1, 91),
    (0, 15_366 + 2, 92),
    (0, 16_406, 7),
    (0, 16_406 + 1, 8),
    (0, 16_406 + 2, 9),
    // (0, 5) is in frame 1 alone.
    (3, 5 + 15 * 5, 0x04_00_01_02),
    // (4, 63) is in page 0.
    (4, 5 + 15 * 319, 0x01_01_00_01),
    (4, 16_406, 77),
];

/// What stands before the number of records.
const HEADER: [u8; 80] = [
    b'G', b'E', b'M', b'V', b'O', b'L', 2, 0, 5, 3, b'l', b'o', b'w', 0, 0, 0, 0, 0, 15, 0, 0, 0,
    0, 3, b'm', b'i', b'd', 1, 0, 0, 0, 0, 15, 0, 0, 0, 0, 4, b'b', b'a', b'r', b'e', 2, 0, 0, 0,
    0, 15, 0, 0, 0, 0, 3, b't', b'o', b'p', 3, 0, 0, 0, 0, 15, 0, 0, 0, 0, 3, b'f', b'a', b'r', 4,
    0, 0, 0, 0, 15, 0, 0, 0, 0,
];

/// The records of volume 1: (0, 1), (0, 3), (0, 4), (0, 5) and (1, 9).
const ONE: [u8; 97] = [
    0, 5, 0, 1, 0, 1, 2, 3, 2, 0, 0, 7, 1, 0, 0, 0, 0, 0, 0, 0, 5, 255, 0, 0, 0, 0, 0, 1, 2, 0, 3,
    0, 1, 2, 3, 3, 0, 1, 2, 1, 0, 0, 0, 0, 0, 0, 0, 7, 0, 0, 0, 0, 0, 0, 0, 8, 0, 0, 0, 0, 0, 0, 0,
    9, 0, 4, 1, 1, 2, 3, 1, 0, 1, 3, 0, 0, 5, 3, 1, 2, 3, 4, 0, 0, 0, 0, 1, 9, 1, 1, 2, 3, 64, 0,
    4, 5, 0,
];

/// The records of volume 2: (1, 0) and (4, 63).
const TWO: [u8; 32] = [
    0, 2, 1, 0, 4, 1, 2, 3, 1, 0, 4, 6, 0, 4, 63, 4, 1, 2, 3, 1, 1, 0, 3, 1, 0, 0, 0, 0, 0, 0, 0,
    77,
];

/// No volume names this one.
const THREE: [u8; 2] = [0, 0];

fn config_of(alloc: Global) -> Result<Config, Fail>
    ensures { IfOk result (λ k. IsValid k) }
{
    match read_config(alloc, TEXT.as_bytes()) {
        Ok(config) => Ok(config),
        Err(_) => Err(Fail::from("a configuration")),
    }
}

/// The address of a place of a class.
fn address(class: u32, place: u32) -> Option<Addr> {
    Some(Addr(34_869u32.checked_mul(class)?.checked_add(place)?))
}

/// Each word put in its place.
fn store_all(words: &mut PlainWords, list: &[(u32, u32, u64)]) -> Result<(), Fail>
    ensures { length words.new ≡ length words.old }
{
    for (class, place, value) in list {
        let addr = address(*class, *place).ok_or("an address")?;
        store(words, addr, *value).ok_or("a word")?;
    }
    Ok(())
}

/// The machine of the configuration with these words.
fn machine_of(alloc: Global, config: &Config) -> Result<Machine<PlainWords>, Fail>
    requires { IsValid config.now }
    ensures { IfOk result (λ m. m.shared.table ≡ config.now.table) }
{
    let MachineParts {
        mut words,
        banks,
        shared,
    } = opening_machine(alloc, config)?.into_parts();
    store_all(&mut words, &WORDS)?;
    Ok(Machine::from_parts(MachineParts {
        words,
        banks,
        shared,
    }))
}

/// The image of these records.
fn image_of(alloc: Global, records: &[u8]) -> Result<Vec<u8>, Fail> {
    let mut bytes = Vec::from_slice(alloc, &HEADER)?;
    bytes.extend_from_slice(records)?;
    Ok(bytes)
}

/// Whether the image of a volume after the run has just these records.
fn has_records(alloc: Global, volume: u8, records: &[u8]) -> Result<bool, Fail>
    requires { 1 ≤ volume }
{
    let config = config_of(alloc)?;
    let machine = machine_of(alloc, &config)?;
    let mut image = Image::new(alloc, &config.table)?;
    volume_after(&machine, &config, volume, &mut image);
    let expected = image_of(alloc, records)?;
    Ok(image.bytes() == expected.as_slice())
}

#[test]
fn volumes_after_a_run(rt: HostRuntime) -> Result<(), Fail> {
    assert!(rt; has_records(rt.alloc(), 1, &ONE)?);
    assert!(rt; has_records(rt.alloc(), 2, &TWO)?);
    assert!(rt; has_records(rt.alloc(), 3, &THREE)?);
    Ok(())
}
