//! Reading a volume.

ghost use Rattle.std.specs.Prelude.{◌≡◌, ◌≤◌, ◌-◌, ◌<◌, ◌^◌, List, ℕ, length, IfOk};
ghost use Rattle.class_model.specs.Config.{SegRecord as RecordValue};
ghost use Rattle.volume_image.specs.Valid.{IsVolume};
ghost use Rattle.volume_image.specs.Steps.{Gives};
ghost use Rattle.volume_image.specs.Fields.{volume_at};
ghost use Rattle.volume_image.specs.Volumes.{error_of, Answers, Spells, IsFault, IsReadAs, IsRefusedWith, max_image};

use crate::body::records_of;
use crate::fault::{Code, Stop, VolumeError, fault};
use crate::head::header_of;
use crate::parts::short_number_of;
use crate::records::{SegRecord, Volume};
use labels::ClassTable;
use std::alloc::Global;

/// The records that all of the bytes spell.
#[tactic(auto, unfolding(crate::specs::Fields::volume_at))]
fn all_of(alloc: Global, bytes: &[u8], table: &ClassTable) -> Result<Vec<SegRecord>, Stop>
    ensures { Gives (λ v. v.items) result (volume_at table.now bytes.now) }
{
    let (format, rest) = header_of(table, bytes)?;
    let (count, rest) = short_number_of(rest)?;
    let (records, rest) = records_of(alloc, format, table, count, rest)?;
    if !rest.is_empty() {
        return Err(fault(rest, Code::Behind));
    }
    Ok(records)
}

/// The error where this stopped the reading of so many bytes.
fn error_of(total: usize, stop: Stop) -> VolumeError
    requires { total < 2 ^ 32 }
    ensures { result ≡ error_of total stop }
{
    match stop {
        Stop::Fault { left, code } => VolumeError::Fault {
            offset: total.saturating_sub(left) as u32,
            code: code as u8,
        },
        Stop::Memory => VolumeError::NoMemory,
    }
}

/// The volume that the bytes spell for the classes of the table, or the first field at fault. Both formats are read.
pub fn read_volume(alloc: Global, bytes: &[u8], table: &ClassTable) -> Result<Volume, VolumeError>
    requires { length bytes.now ≤ max_image }
    // What is read is spelled so, and a fault is the first one, with its code.
    ensures right { Answers table.now bytes.now result }
    // A volume that is read is valid, so that it can be written.
    ensures valid { IfOk result (λ v. IsVolume table.now v) }
    // What is spelled so is read, and what is at fault is refused with that fault, unless memory runs out.
    ensures only { (v : List RecordValue) → Spells table.now bytes.now v → IsReadAs v result }
    ensures refused { (offset code : ℕ) → IsFault table.now bytes.now offset code → IsRefusedWith offset code result }
{
    table.table_law();
    match all_of(alloc, bytes, table) {
        Ok(records) => Ok(Volume::new(records)),
        Err(stop) => Err(error_of(bytes.len(), stop)),
    }
}
