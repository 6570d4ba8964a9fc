//! An image kept on a disk, in one of two halves.
//!
//! Byte 0 of the disk is the gate: half 0 is in use where it is even, half 1 where it is odd. Half `h` begins at byte
//! `16 + 4194312 h` with the length of its image, a big-endian number of eight bytes, and the image follows. A new image is
//! written into the half that isn't in use, and brought to its end there, before the gate is written: whatever a crash leaves
//! in the gate picks one of two whole halves.

ghost use Rattle.std.specs.Prelude.{◌≡◌, ◌↔◌, ◌⊎◌, ℕ, ◌+◌, ◌*◌, ◌<◌, ◌≤◌, List, [], ◌∷◌, length, drop, OnOk, OnErr, IfOk, IsErrOf};
ghost use Rattle.host_ports.specs.Ports.{Rose, HasCause};
ghost use Rattle.safe_save.specs.declared.keeping.SaveError.TheVariants.{Disk};
ghost use Rattle.safe_save.specs.Disk.{written, DiffersIn, Only, LeavesOnly};
ghost use Rattle.safe_save.specs.Kept.{start_of, kept, kept_bytes, IsOpen, IsStored, IsOldOrNew, Opens, NotFailed, Kept, Image, max_length};

use crate::disk::Disk;
use host_ports::Failed;

/// The place of the gate.
const GATE: u64 = 0;

/// The place of half 0.
const HALVES: u64 = 16;

/// The bytes of the length of an image.
const LENGTH_SIZE: u64 = 8;

/// The greatest length of an image.
const MAX_LENGTH: u64 = 4_194_304;

/// The half in use, 0 or 1, and the length of its image, at most 4,194,304; 0 where there is no image.
#[derive(Clone, Copy, PartialEq, Eq, Debug, Drop)]
pub struct Place {
    pub half: u8,
    pub length: u64,
}

/// Why an image isn't kept or given.
#[derive(Clone, Copy, PartialEq, Eq, Debug, Drop)]
pub enum SaveError {
    /// A call of the disk failed.
    Disk,
    /// The length of the half in use is above 4,194,304.
    Length { length: u64 },
}

impl From<Failed> for SaveError {
    ghost from_gives = { λ _ e. e ≡ Disk };

    fn from(_: Failed) -> SaveError {
        SaveError::Disk
    }
}

/// Where a half begins.
fn half_start(half: u8) -> u64
    requires { half < 2 }
    ensures { result ≡ start_of half }
{
    HALVES + (LENGTH_SIZE + MAX_LENGTH) * u64::from(half)
}

/// Writes the bytes, and brings them to their end.
fn write_through<D: Disk>(disk: &mut D, at: u64, bytes: &[u8]) -> Result<(), Failed>
    requires range { at + length bytes.now ≤ 8388640 }
    requires only { D.honest disk.old → Only (D.seen disk.old) (D.may_leave disk.old) }
    ensures honest { D.honest disk.old ↔ D.honest disk.new }
    ensures only { D.honest disk.old → OnOk result (Only (D.seen disk.new) (D.may_leave disk.new)) }
    ensures written { D.honest disk.old → OnOk result (D.seen disk.new ≡ written (D.seen disk.old) at bytes.now) }
    ensures any_moment { D.honest disk.old → LeavesOnly D.moment D.left_since disk.old disk.new (DiffersIn at (length bytes.now) (D.seen disk.old)) }
    ensures cause { HasCause (D.faults disk.old) (D.faults disk.new) result }
{
    disk.write(at, bytes)?;
    disk.sync()
}

/// Opens a disk: the half in use with the length of its image.
///
/// It begins with a `sync`, so that a disk may be opened after a fault: what it finds then is what stays. What a read gives is as
/// it was, with every answer, and a crash at any moment leaves an image that a crash before the call may leave.
pub fn open<D: Disk>(disk: &mut D) -> Result<Place, SaveError>
    ensures honest { D.honest disk.old ↔ D.honest disk.new }
    ensures answer { D.honest disk.old → Opens (D.seen disk.old) result }
    ensures open { IfOk result (λ place. IsOpen D.honest D.seen D.may_leave disk.new place) }
    ensures too_great { (length : ℕ) → IsErrOf result (SaveError.Length length) → max_length < length }
    ensures seen { D.honest disk.old → D.seen disk.new ≡ D.seen disk.old }
    ensures only { D.honest disk.old → NotFailed result (Only (D.seen disk.new) (D.may_leave disk.new)) }
    ensures any_moment { D.honest disk.old → LeavesOnly D.moment D.left_since disk.old disk.new (D.may_leave disk.old) }
    ensures later { D.faults disk.old ≤ D.faults disk.new }
    ensures cause { IsErrOf result SaveError.Disk → Rose (D.faults disk.old) (D.faults disk.new) }
{
    disk.sync()?;
    let mut gate = [0; 1];
    disk.read(GATE, &mut gate)?;
    let half = gate[0] % 2;
    let mut length = [0; 8];
    disk.read(half_start(half), &mut length)?;
    let length = u64::from_be_bytes(length);
    if length > MAX_LENGTH {
        return Err(SaveError::Length { length });
    }
    Ok(Place { half, length })
}

/// Keeps an image in the place of the one before. The bytes are the length of the image and the image.
///
/// A crash at any moment of the call leaves the image of before or the new one, whole. After Ok every crash leaves the new one.
/// At an error a call of the disk failed, and the disk is to be opened again.
pub fn save<D: Disk>(disk: &mut D, place: &Place, bytes: &[u8]) -> Result<Place, SaveError>
    requires open { IsOpen D.honest D.seen D.may_leave disk.old place.now }
    requires stored { IsStored bytes.now }
    ensures honest { D.honest disk.old ↔ D.honest disk.new }
    ensures any_moment { D.honest disk.old → LeavesOnly D.moment D.left_since disk.old disk.new (IsOldOrNew (kept (D.seen disk.old)) bytes.now) }
    ensures seen { D.honest disk.old → IsOldOrNew (kept (D.seen disk.old)) bytes.now (D.seen disk.new) }
    ensures lasting { D.honest disk.old → OnOk result ((c : List ℕ) → D.may_leave disk.new c → kept c ≡ Image (drop 8 bytes.now)) }
    ensures saved { D.honest disk.old → OnOk result (kept (D.seen disk.new) ≡ Image (drop 8 bytes.now)) }
    ensures open { IfOk result (λ place. IsOpen D.honest D.seen D.may_leave disk.new place) }
    ensures later { D.faults disk.old ≤ D.faults disk.new }
    ensures cause { OnErr result (IsErrOf result SaveError.Disk × Rose (D.faults disk.old) (D.faults disk.new)) }
{
    let half = 1 - place.half;
    let start = half_start(half);
    write_through(disk, start, bytes)?;
    write_through(disk, GATE, &[half])?;
    Ok(Place {
        half,
        length: bytes.len() as u64 - LENGTH_SIZE,
    })
}

/// Reads the image of a place, which is empty where there is none. At an error a call of the disk failed, and any bytes may stand
/// in `into`.
///
/// What a read gives is as it was, with every answer, and a crash at any moment leaves that.
pub fn load<D: Disk>(disk: &mut D, place: &Place, into: &mut [u8]) -> Result<(), SaveError>
    requires open { IsOpen D.honest D.seen D.may_leave disk.old place.now }
    requires room { length into.old ≡ place.now.length }
    ensures honest { D.honest disk.old ↔ D.honest disk.new }
    ensures loaded { D.honest disk.old → OnOk result (kept (D.seen disk.old) ≡ kept_bytes into.new) }
    ensures open { IsOpen D.honest D.seen D.may_leave disk.new place.now }
    ensures seen { D.honest disk.old → D.seen disk.new ≡ D.seen disk.old }
    ensures any_moment { D.honest disk.old → LeavesOnly D.moment D.left_since disk.old disk.new (λ c. c ≡ D.seen disk.old) }
    ensures later { D.faults disk.old ≤ D.faults disk.new }
    ensures cause { OnErr result (IsErrOf result SaveError.Disk × Rose (D.faults disk.old) (D.faults disk.new)) }
{
    disk.read(half_start(place.half) + LENGTH_SIZE, into)?;
    Ok(())
}
