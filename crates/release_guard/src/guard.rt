//! Releases, one after the other, and the export.

ghost use Rattle.std.specs.Prelude.{◌≡◌, ◌<◌, ℕ, IfOk, Some, length};
ghost use Rattle.std.specs.Result.{result_err};
ghost use Rattle.text_lines.specs.Faults.{first_code};
ghost use Rattle.volume_image.specs.Valid.{IsVolume};
ghost use Rattle.release_guard.specs.declared.fault.ReleaseError.TheVariants.{Fault};
ghost use Rattle.release_guard.specs.Codes.{lack_number};
ghost use Rattle.release_guard.specs.Guard.{words_at, release_tests, AnswersRelease, CanRelease, IsMade, IsReleaseFault, IsRefusedAt};
ghost use Rattle.release_guard.specs.Working.{Carries};

use crate::fault::{Lack, ReleaseError};
use crate::order::{Order, Release};
use crate::records::{copies_of, export_all, put_words, record_of, words_of};
use std::alloc::Global;
use volume_image::{SegRecord, Volume};

/// The words at the source of a release, or what the release lacks.
fn source_words<'a>(records: &'a [SegRecord], release: &Release) -> Result<&'a [u64], Lack>
    ensures code { first_code (release_tests records.now release.now) ≡ result_err result }
    ensures words { IfOk result (λ w. words_at records.now release.now.from ≡ Some w.now) }
{
    let Some(source) = record_of(records, release.from) else {
        return Err(Lack::Source);
    };
    let Some(words) = words_of(source) else {
        return Err(Lack::Words);
    };
    let Some(target) = record_of(records, release.to) else {
        return Err(Lack::Target);
    };
    if source.size != target.size {
        return Err(Lack::Size);
    }
    Ok(words)
}

/// The fault of a release.
fn fault_of(release: &Release, lack: Lack) -> ReleaseError
    ensures { result ≡ Fault release.now.line (lack_number lack) }
{
    ReleaseError::Fault {
        line: release.line,
        code: lack as u8,
    }
}

/// The records after the releases, one after the other. Each takes its words from the records as they were at first.
fn release_all(
    alloc: Global,
    releases: &[Release],
    records: &[SegRecord],
) -> Result<Vec<SegRecord>, ReleaseError>
    ensures { Carries releases.now records.now result }
{
    let mut working = copies_of(alloc, records)?;
    for release in releases {
        match source_words(records, release) {
            Ok(words) => put_words(alloc, &mut working, release.to, words)?,
            Err(lack) => return Err(fault_of(release, lack)),
        }
    }
    Ok(working)
}

/// The volume that the order makes, or the first release at fault with its least code. Each release puts the words that
/// its source has in the volume as it was read into its target; then the records at or below the export class are exported.
pub fn release(alloc: Global, order: &Order, volume: &Volume) -> Result<Volume, ReleaseError>
    requires volume { IsVolume order.now.table volume.now }
    requires export { order.now.export < length order.now.table }
    // What is made is the volume of the order, and a fault is that of the first release at fault, with its least code.
    ensures right { AnswersRelease order.now volume.now result }
    // Where no release is at fault a volume is made, and a fault is answered, unless memory runs out.
    ensures only { CanRelease order.now volume.now → IsMade result }
    ensures refused { (line code : ℕ) → IsReleaseFault order.now volume.now line code → IsRefusedAt line code result }
    // What is made is valid for the order's table.
    ensures valid { IfOk result (λ made. IsVolume order.now.table made) }
{
    let working = match release_all(alloc, order.releases.as_slice(), volume.list()) {
        Ok(working) => working,
        Err(error) => return Err(error),
    };
    let records = export_all(alloc, order, working)?;
    Ok(Volume::new(records))
}
