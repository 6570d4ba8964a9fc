//! What is done with the disk.

ghost use Rattle.std.specs.Prelude.{◌≡◌, ◌↔◌, ◌≤◌, List, ℕ, drop, IfOk, IfErr, vec_len};
ghost use Rattle.command_save.specs.Disks.{Stays, sight};
ghost use Rattle.command_save.specs.Keeping as spec;
ghost use Rattle.command_save.specs.Keeping.{IsKept, KeepShows, KeptFails};
ghost use Rattle.safe_save.specs.Kept.{IsStored, max_length};

use command_input::{PortFault, Refusal, Status};
use safe_save::{Disk, SaveError, load, open};
use std::alloc::{AllocError, Global};

/// The answer to a fault of the disk.
pub fn answer_of(error: SaveError) -> Status
    ensures { result ≡ spec.answer_of error }
{
    match error {
        SaveError::Disk => Status::HostFault(PortFault::Disk),
        SaveError::Length { length } => Status::Refused(Refusal::Store { length }),
    }
}

/// Opens the disk, and keeps an image on it in the place of the one before. The bytes are the length of the image and the image.
pub fn keep<D: Disk>(disk: &mut D, bytes: &[u8]) -> Result<(), SaveError>
    requires { IsStored bytes.now }
    ensures honest { D.honest disk.old ↔ D.honest disk.new }
    ensures later { D.faults disk.old ≤ D.faults disk.new }
    ensures shows { KeepShows (sight D.honest D.seen D.may_leave D.moment D.left_since D.faults) (drop 8 bytes.now) disk.old disk.new result }
{
    let place = match open(disk) {
        Ok(place) => place,
        Err(error) => return Err(error),
    };
    match safe_save::save(disk, &place, bytes) {
        Ok(_) => Ok(()),
        Err(error) => Err(error),
    }
}

/// Room for an image of that length.
fn blank_image(alloc: Global, length: u64) -> Result<Vec<u8>, AllocError>
    requires { length ≤ max_length }
    ensures { IfOk result (λ image. vec_len image ≡ length) }
{
    let mut image = Vec::new(alloc);
    image.resize(length as usize, 0u8)?;
    Ok(image)
}

/// Opens the disk, and loads the image that it keeps. Else the answer why there is none.
pub fn kept_image<D: Disk>(alloc: Global, disk: &mut D) -> Result<Vec<u8>, Status>
    ensures honest { D.honest disk.old ↔ D.honest disk.new }
    ensures later { D.faults disk.old ≤ D.faults disk.new }
    ensures stays { D.honest disk.old → Stays (sight D.honest D.seen D.may_leave D.moment D.left_since D.faults) disk.old disk.new }
    ensures image { IfOk result (λ image. IsKept (sight D.honest D.seen D.may_leave D.moment D.left_since D.faults) disk.old image.items) }
    ensures fault { IfErr result (KeptFails (sight D.honest D.seen D.may_leave D.moment D.left_since D.faults) disk.old disk.new) }
{
    let place = match open(disk) {
        Ok(place) => place,
        Err(error) => return Err(answer_of(error)),
    };
    if place.length == 0 {
        return Err(Status::Refused(Refusal::Store { length: 0 }));
    }
    let Ok(mut image) = blank_image(alloc, place.length) else {
        return Err(Status::NoMemory);
    };
    match load(disk, &place, image.as_mut_slice()) {
        Ok(()) => Ok(image),
        Err(error) => Err(answer_of(error)),
    }
}
