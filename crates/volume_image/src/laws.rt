//! What holds of volumes and their spellings.

ghost use Rattle.std.specs.Prelude.{◌≡◌, ◌≢◌, ◌≤◌, ◌<◌, ◌⊎◌, ℕ, List, length, slice_index, slice_index_or, ◌+◌, ◌++◌};
ghost use Rattle.labels.specs.Label.{ClassEntry};
ghost use Rattle.labels.specs.Table.{IsTable};
ghost use Rattle.class_model.specs.Config.{SegRecord as RecordValue};
ghost use Rattle.volume_image.specs.Valid.{IsVolume};
ghost use Rattle.volume_image.specs.Written.{record_bytes, written};
ghost use Rattle.volume_image.specs.Volumes.{Spells, IsFault, HasFault};
ghost use Rattle.volume_image.specs.Images.{Drawn, largest, IsMadeFor, begun};

/// Bytes spell one volume or have one first fault, and never both. A volume that is spelled is valid, and a valid one
/// is spelled by what is written, which is no longer than the largest image.
#[tactic(auto, using(crate::proofs::VolumeLaws::laws))]
pub fn volume_laws()
    ensures valid { (table : List ClassEntry) (bytes : List ℕ) (v : List RecordValue) → Spells table bytes v → IsVolume table v }
    ensures spelled { (table : List ClassEntry) (v : List RecordValue) → IsVolume table v → Spells table (written table v) v }
    ensures one { (table : List ClassEntry) (bytes : List ℕ) (v w : List RecordValue) → IsTable table → Spells table bytes v → Spells table bytes w → v ≡ w }
    ensures apart { (table : List ClassEntry) (bytes : List ℕ) (v : List RecordValue) → IsTable table → Spells table bytes v → (offset code : ℕ) → IsFault table bytes offset code → ⊥ }
    ensures one_fault { (table : List ClassEntry) (bytes : List ℕ) (o n p m : ℕ) → IsFault table bytes o n → IsFault table bytes p m → (o ≡ p) × (n ≡ m) }
    ensures always { (table : List ClassEntry) (bytes : List ℕ) → ((i : ℕ) → slice_index bytes i < 256) → ((v : List RecordValue) × Spells table bytes v) ⊎ HasFault table bytes }
    ensures length { (table : List ClassEntry) (v : List RecordValue) → IsTable table → IsVolume table v → length (written table v) ≤ largest table }
{}

/// What follows the first field at fault doesn't matter. A front of a spelled image ends too early, and what follows a
/// spelled image is too much.
pub fn fault_laws()
    ensures stays { (table : List ClassEntry) (bytes more : List ℕ) (offset code : ℕ) → code ≢ 1 → code ≢ 12 → IsFault table bytes offset code → IsFault table (bytes ++ more) offset code }
    ensures front { (table : List ClassEntry) (bytes more : List ℕ) (v : List RecordValue) → IsTable table → 0 < length more → Spells table (bytes ++ more) v → IsFault table bytes (length bytes) 1 }
    ensures behind { (table : List ClassEntry) (bytes more : List ℕ) (v : List RecordValue) → IsTable table → 0 < length more → Spells table bytes v → IsFault table (bytes ++ more) (length bytes) 12 }
{}

/// An image that was made for the table has room for each record of a valid volume in turn, and holds in the end what is
/// written.
#[tactic(auto, using(crate::proofs::VolumeLaws::laws))]
pub fn image_laws()
    ensures next { (table : List ClassEntry) (v : List RecordValue) (i : ℕ) (d : RecordValue) → i < length v → begun table v i ++ record_bytes (slice_index_or v i d) ≡ begun table v (i + 1) }
    ensures whole { (table : List ClassEntry) (v : List RecordValue) → begun table v (length v) ≡ written table v }
    ensures fits { (table : List ClassEntry) (v : List RecordValue) (i : ℕ) (d : RecordValue) (image : Drawn) → IsTable table → IsVolume table v → IsMadeFor table image → image.bytes ≡ begun table v i → i < length v → length (record_bytes (slice_index_or v i d)) ≤ image.spare }
{}
