//! The sections at the opening of a configuration with a volume, on the machine of whole instructions, given what is at or below
//! each class. The program prints the same for it.

ghost use Rattle.std.specs.Prelude.{◌≡◌, ◌<◌, ◌&&◌, not, IfOk};
ghost use Rattle.config_text.specs.Valid.{IsValid};
ghost use Rattle.loader.specs.Records.{AreVolumes, names_volume};
ghost use Rattle.volume_image.specs.Valid.{IsVolume};

use config_text::{Config, read_config};
use loader::{model_state, names_volume};
use std::alloc::Global;
use std::test::Fail;
use volume_image::{Volume, read_volume};
use whole_machine::model_section;

const TEXT: &str =
    "gemkernel 1\nclasses 2\nclass low 0{}/15{} frames 2 pages 2 volume 1\nclass high 1{}/15{} frames 2 pages 2 volume 1\nprocessors 1\ncycle 0\nrounds 1\nquantum 1\nconsole 100\nend\n";

/// A volume of the first format with a segment of class 1 in entry 0 of the root.
const IMAGE: [u8; 42] = [
    0x47, 0x45, 0x4d, 0x56, 0x4f, 0x4c, 1, 0, 2, 0, 0, 0, 0, 0, 0x0f, 0, 0, 0, 0, 1, 0, 0, 0, 0,
    0x0f, 0, 0, 0, 0, 0, 1, 0, 1, 1, 7, 7, 7, 2, 0, 0, 0, 0,
];

/// What class 0 is shown.
const LOW: &str =
    "class 0 low\nclosed\nsegment 0 0 never writes 0 count 0 tickets 0\nentry 0 class 1 brackets 7 7 7 size 2 serial 1\n";

/// What class 1 is shown.
const HIGH: &str = "class 1 high\nclosed\n";

fn configuration(alloc: Global) -> Result<Config, Fail>
    ensures { IfOk result (λ k. IsValid k) }
{
    match read_config(alloc, TEXT.as_bytes()) {
        Ok(config) => Ok(config),
        Err(_) => Err(Fail::from("a configuration")),
    }
}

/// The bytes of the image.
fn image() -> [u8; 42] {
    IMAGE
}

/// The volume of the image.
fn volume(alloc: Global, config: &Config) -> Result<Volume, Fail>
    ensures { IfOk result (λ v. IsVolume config.now.table v) }
{
    let image = image();
    match read_volume(alloc, &image, &config.table) {
        Ok(volume) => Ok(volume),
        Err(_) => Err(Fail::from("a volume")),
    }
}

/// Whether the pools name volume 1 and no other.
fn has_one(config: &Config) -> bool
    ensures { result ≡ (names_volume config.now 1 && not (names_volume config.now 2) && not (names_volume config.now 3) && not (names_volume config.now 4)) }
{
    names_volume(config, 1)
        && !names_volume(config, 2)
        && !names_volume(config, 3)
        && !names_volume(config, 4)
}

/// The volume alone, where the configuration has no other.
fn alone(alloc: Global, config: &Config, volume: Volume) -> Result<Vec<(u8, Volume)>, Fail>
    requires { IsVolume config.now.table volume }
    ensures { IfOk result (λ v. AreVolumes config.now v.items) }
{
    if !has_one(config) {
        return Err(Fail::from("one volume"));
    }
    let mut volumes = Vec::new(alloc);
    volumes.push((1, volume))?;
    Ok(volumes)
}

/// The section of a class, given what is at or below it.
fn section_of(alloc: Global, class: u8) -> Result<String, Fail> {
    let config = configuration(alloc)?;
    if class >= config.table.count() {
        return Err(Fail::from("a class"));
    }
    let volume = volume(alloc, &config)?;
    let volumes = alone(alloc, &config, volume)?;
    match model_state(alloc, &config, volumes.as_slice(), class) {
        Ok(model) => Ok(model_section(alloc, &model, class)?),
        Err(_) => Err(Fail::from("an opening")),
    }
}

#[test]
fn each_class_is_shown_its_part_of_a_volume(rt: HostRuntime) -> Result<(), Fail> {
    let low = section_of(rt.alloc(), 0)?;
    assert_eq!(rt; low.as_str(), LOW);
    let high = section_of(rt.alloc(), 1)?;
    assert_eq!(rt; high.as_str(), HIGH);
    Ok(())
}
