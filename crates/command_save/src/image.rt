//! Images of volumes: with their length before them, and written anew.

ghost use Rattle.std.specs.Prelude.{◌≤◌, IfOk, IfErr, length};
ghost use Rattle.command_save.specs.Images.{AreStored, HasShortNames, IsRewritten, RewriteFails};
ghost use Rattle.volume_image.specs.Valid.{IsVolume};
ghost use Rattle.volume_image.specs.Volumes.{max_image};
ghost use Rattle.volume_image.specs.Written.{written};

use command_input::{Refusal, Status};
use labels::ClassTable;
use std::alloc::{AllocError, Global};
use volume_image::{Volume, VolumeError, read_volume, volume_laws, write_volume};

/// The number that stands for the disk where a port is named.
const DISK_PORT: u8 = 5;

/// The length of the volume's spelling in format 2, and the spelling.
pub fn stored_bytes(
    alloc: Global,
    volume: &Volume,
    table: &ClassTable,
) -> Result<Vec<u8>, AllocError>
    requires names { HasShortNames table.now }
    requires volume { IsVolume table.now volume.now }
    ensures { IfOk result (λ bytes. AreStored (written table.now volume.now) bytes.items) }
{
    table.table_law();
    volume_laws();
    let image = write_volume(alloc, volume, table)?;
    let mut bytes = Vec::new(alloc);
    bytes.extend_from_slice(&(image.len() as u64).to_be_bytes())?;
    bytes.extend_from_slice(image.as_slice())?;
    Ok(bytes)
}

/// The spelling in format 2 of the volume that an image spells, in either format. Else the answer why there is none.
pub fn rewritten(alloc: Global, image: &[u8], table: &ClassTable) -> Result<Vec<u8>, Status>
    requires { length image.now ≤ max_image }
    ensures written { IfOk result (λ bytes. IsRewritten table.now image.now bytes.items) }
    ensures fault { IfErr result (RewriteFails table.now image.now) }
{
    let volume = match read_volume(alloc, image, table) {
        Ok(volume) => volume,
        Err(VolumeError::Fault { offset, code }) => {
            return Err(Status::Refused(Refusal::Volume {
                port: DISK_PORT,
                offset,
                code,
            }));
        }
        Err(VolumeError::NoMemory) => return Err(Status::NoMemory),
    };
    match write_volume(alloc, &volume, table) {
        Ok(bytes) => Ok(bytes),
        Err(_) => Err(Status::NoMemory),
    }
}
