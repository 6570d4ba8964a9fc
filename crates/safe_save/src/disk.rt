//! What a disk is.

ghost use Rattle.std.specs.Prelude.{◌≡◌, ◌↔◌, ◌⊎◌, ℕ, ◌+◌, ◌≤◌, List, length, OnOk, OnErr};
ghost use Rattle.host_ports.specs.Ports.{HasCause};
ghost use Rattle.lists.specs.Lists.{part_of};
ghost use Rattle.safe_save.specs.Disk.{written, DiffersIn, Only, SameImages, OnlyBytesIn, AnyBytesIn, Elapses};

use host_ports::Failed;

/// A disk of 8,388,640 bytes, on which a range is read or written, and which is told to bring to its end what was written.
///
/// Where a disk is honest, a crash leaves any bytes in the ranges that were written since the last `sync` that succeeded, and
/// elsewhere what stood at that `sync`. Every range lies within the disk. A count of faults never falls, and a call fails only
/// where it rose, or stands at 2^64 - 1.
pub trait Disk {
    /// Whether it keeps its promises.
    ghost honest: { Self → Type 0 };

    /// The bytes that a read gives.
    ghost seen: { Self → List ℕ };

    /// Which images a crash at this moment may leave.
    ghost may_leave: { Self → List ℕ → Type 0 };

    /// The moment, as a number that doesn't fall.
    ghost moment: { Self → ℕ };

    /// Which images a crash at some moment from that one on may have left, during a call or between two.
    ghost left_since: { Self → ℕ → List ℕ → Type 0 };

    /// How many calls have failed.
    ghost faults: { Self → ℕ };

    /// Reads the bytes from that place on into the buffer. A failed call leaves any bytes in the buffer.
    fn read(&mut self, at: u64, buf: &mut [u8]) -> Result<(), Failed>
        requires { at + length buf.old ≤ 8388640 }
        ensures honest { honest self.old ↔ honest self.new }
        ensures bytes { honest self.old → OnOk result (buf.new ≡ part_of (seen self.old) at (length buf.old)) }
        ensures seen { honest self.old → seen self.new ≡ seen self.old }
        ensures images { honest self.old → SameImages (may_leave self.old) (may_leave self.new) }
        ensures time { honest self.old → Elapses (moment self.old) (moment self.new) (left_since self.old) (left_since self.new) (may_leave self.new) }
        ensures cause { HasCause (faults self.old) (faults self.new) result };

    /// Writes the bytes from that place on. Until a `sync` succeeds, a crash may leave any bytes in the range; a failed call may
    /// leave any bytes there too.
    fn write(&mut self, at: u64, bytes: &[u8]) -> Result<(), Failed>
        requires { at + length bytes.now ≤ 8388640 }
        ensures honest { honest self.old ↔ honest self.new }
        ensures written { honest self.old → OnOk result (seen self.new ≡ written (seen self.old) at bytes.now) }
        ensures torn { honest self.old → OnErr result (DiffersIn at (length bytes.now) (seen self.old) (seen self.new)) }
        ensures images { honest self.old → OnlyBytesIn at (length bytes.now) (may_leave self.old) (may_leave self.new) }
        ensures any_bytes { honest self.old → OnOk result (AnyBytesIn at (length bytes.now) (may_leave self.old) (may_leave self.new)) }
        ensures time { honest self.old → Elapses (moment self.old) (moment self.new) (left_since self.old) (left_since self.new) (may_leave self.new) }
        ensures cause { HasCause (faults self.old) (faults self.new) result };

    /// Brings to its end what was written: after it a crash leaves what a read gives. A failed call changes nothing.
    fn sync(&mut self) -> Result<(), Failed>
        ensures honest { honest self.old ↔ honest self.new }
        ensures seen { honest self.old → seen self.new ≡ seen self.old }
        ensures only { honest self.old → OnOk result (Only (seen self.new) (may_leave self.new)) }
        ensures images { honest self.old → OnErr result (SameImages (may_leave self.old) (may_leave self.new)) }
        ensures time { honest self.old → Elapses (moment self.old) (moment self.new) (left_since self.old) (left_since self.new) (may_leave self.new) }
        ensures cause { HasCause (faults self.old) (faults self.new) result };

    /// Its size in bytes.
    ghost size: { (disk : Self) → honest disk → length (seen disk) ≡ 8388640 };

    /// What a read gives is one of the images.
    ghost shown: { (disk : Self) → honest disk → may_leave disk (seen disk) };

    /// This moment is one of those since an earlier one.
    ghost counts_now: { (disk : Self) (t : ℕ) (c : List ℕ) → honest disk → t ≤ moment disk → may_leave disk c → left_since disk t c };

    /// Since this moment there is no other.
    ghost only_now: { (disk : Self) (c : List ℕ) → honest disk → left_since disk (moment disk) c → may_leave disk c };
}
