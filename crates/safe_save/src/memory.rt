//! A disk in memory, for tests.

ghost use Rattle.std.specs.Prelude.{◌≡◌, ◌↔◌, ◌⊎◌, ℕ, ◌+◌, ◌-◌, ◌≤◌, ◌<◌, [], IsTrue, Contains, All, vec_len, length, take, IfOk, IsErr, OnOk, OnErr};
ghost use Rattle.host_ports.specs.Ports.{HasCause};
ghost use Rattle.lists.specs.Lists.{part_of};
ghost use Rattle.safe_save.specs.Disk.{written, DiffersIn, Only, SameImages, OnlyBytesIn, AnyBytesIn, Elapses};
ghost use Rattle.safe_save.specs.Memory.{Memory, IsWithin, IsWhole, MayLeave, LeftSince, IsLeft, IsRefusal, state_of, state_at, image_of, CallFails, DoesExactly, done, refused, noted, noted_if_room, next_call, next_fault};
ghost use Rattle.safe_save.specs.Memory as memory;
ghost use Rattle.safe_save.specs.MemoryLaws.{size_law, shown_law, counts_law, only_law};

use crate::disk::Disk;
use crate::fill::Fill;
use crate::record::{Record, overwrite};
use host_ports::Failed;
use std::alloc::{AllocError, Global};
use std::marker::Model;

/// A disk in memory for tests. It is honest, tells all, and keeps a record of its calls.
///
/// Calls are numbered from 1. A call fails where its number is listed as failing, or where the record has no room for it. A call
/// that fails is counted and changes nothing.
#[derive(Drop)]
pub struct MemoryDisk {
    opening: Vec<u8>,
    bytes: Vec<u8>,
    log: Record,
    failing: Vec<u32>,
    calls: u32,
    faults: u64,
}

impl Model for MemoryDisk {
    ghost use Rattle.std.specs.Prelude.{◌≡◌, All, length};
    ghost use Rattle.safe_save.specs.Memory.{Memory, IsWithin, fresh, after_calls};

    ghost Value = { Memory };

    ghost view = { λ d. record { opening = d.opening.items; log = d.log; failing = d.failing.items; calls = d.calls; faults = d.faults } };

    ghost invariant = { λ d. record { size : length d.opening.items ≡ 8388640; whole : length d.bytes.items ≡ 8388640; shown : d.bytes.items ≡ (after_calls d.log.calls (fresh d.opening.items)).bytes; within : All IsWithin d.log.calls } };
}

/// Whether the call of that number is in the list.
fn is_listed(list: &[u32], call: u32) -> bool
    ensures { IsTrue result ↔ Contains list.now call }
{
    list.iter().any(|n| *n == call)
}

impl MemoryDisk {
    /// A disk with those bytes, all of which stand.
    ///
    /// The memory for a record of `calls` calls that write `room` bytes in all is taken here, and for a second copy of the bytes,
    /// so that no call needs any.
    pub fn new(
        alloc: Global,
        bytes: Vec<u8>,
        failing: Vec<u32>,
        calls: u32,
        room: usize,
    ) -> Result<MemoryDisk, AllocError>
        requires { vec_len bytes ≡ 8388640 }
        ensures disk { IfOk result (λ disk. disk ≡ record { opening = bytes.items; log = record { calls = []; most = calls; room = room }; failing = failing.items; calls = 0; faults = 0 }) }
        ensures honest { IfOk result IsWhole }
    {
        let opening = bytes.to_vec(alloc)?;
        let log = Record::new(alloc, calls, room)?;
        Ok(MemoryDisk {
            opening,
            bytes,
            log,
            failing,
            calls: 0,
            faults: 0,
        })
    }

    /// What a read gives.
    pub fn bytes(&self) -> &[u8]
        ensures { result.now ≡ (state_of self.now).bytes }
    {
        &self.bytes
    }

    /// The number of calls made.
    pub fn calls(&self) -> u32
        ensures { result ≡ self.now.calls }
    {
        self.calls
    }

    /// Puts into `into` an image that a crash right after that call may leave: the ranges written since the last sync that
    /// succeeded are filled so. Call 0 stands for the opening.
    pub fn image_after(&self, call: u32, fill: Fill, into: &mut [u8])
        requires made { call ≤ self.now.calls }
        requires size { length into.old ≡ 8388640 }
        ensures image { into.new ≡ image_of fill (state_at self.now call) }
        ensures left { let s = state_at self.now call in IsLeft s.ranges s.stood into.new }
    {
        into.copy_from_slice(&self.opening);
        self.log.draw(call, fill, into);
    }

    /// Begins a call that writes so many bytes, and answers whether it is one that fails.
    fn next_call_fails(&mut self, count: usize) -> bool
        ensures whole { IsWhole self.old }
        ensures fails { IsTrue result ↔ CallFails self.old count }
        ensures begun { self.new ≡ record self.old { calls = next_call self.old.calls } }
    {
        self.calls = self.calls.saturating_add(1);
        is_listed(&self.failing, self.calls) || self.log.is_full() || self.log.room() < count
    }

    /// Counts a failed call.
    fn refuse(&mut self)
        ensures counted { self.new ≡ record self.old { log = noted_if_room self.old.log memory.Idle; faults = next_fault self.old.faults } }
        ensures later { self.old.faults ≤ self.new.faults }
    {
        self.faults = self.faults.saturating_add(1);
        if !self.log.is_full() {
            self.log.note_idle();
        }
    }

    /// Begins a call that writes so many bytes. One that fails is counted, and changes nothing else.
    fn begin(&mut self, count: usize) -> Result<(), Failed>
        ensures whole { IsWhole self.old }
        ensures fails { IsErr result ↔ CallFails self.old count }
        ensures begun { OnOk result (self.new ≡ record self.old { calls = next_call self.old.calls }) }
        ensures refused { OnErr result (IsRefusal self.old self.new) }
        ensures cause { HasCause self.old.faults self.new.faults result }
    {
        if self.next_call_fails(count) {
            self.refuse();
            return Err(Failed);
        }
        Ok(())
    }

    /// Gives the bytes from that place on.
    fn read_out(&mut self, at: usize, buf: &mut [u8])
        requires place { length self.old.log.calls < self.old.log.most }
        requires range { at + length buf.old ≤ 8388640 }
        ensures bytes { buf.new ≡ part_of (state_of self.old).bytes at (length buf.old) }
        ensures noted { self.new ≡ record self.old { log = noted self.old.log memory.Idle } }
    {
        buf.copy_from_slice(&self.bytes[at..at + buf.len()]);
        self.log.note_idle();
    }

    /// Takes the bytes to that place.
    fn write_in(&mut self, at: usize, bytes: &[u8])
        requires place { length self.old.log.calls < self.old.log.most }
        requires room { length bytes.now ≤ self.old.log.room }
        requires range { at + length bytes.now ≤ 8388640 }
        ensures { self.new ≡ record self.old { log = record (noted self.old.log (memory.Wrote at bytes.now)) { room = self.old.log.room - length bytes.now } } }
    {
        overwrite(&mut self.bytes, at, bytes);
        self.log.note_write(at, bytes);
    }

    /// Lets all stand that was written.
    fn settle(&mut self)
        requires { length self.old.log.calls < self.old.log.most }
        ensures { self.new ≡ record self.old { log = noted self.old.log memory.Synced } }
    {
        self.log.note_sync();
    }
}

impl Disk for MemoryDisk {
    ghost honest = { IsWhole };

    ghost seen = { λ d. (state_of d).bytes };

    ghost may_leave = { MayLeave };

    ghost moment = { λ d. length d.log.calls };

    ghost left_since = { LeftSince };

    ghost faults = { λ d. d.faults };

    ghost size = { size_law };

    ghost shown = { shown_law };

    ghost counts_now = { counts_law };

    ghost only_now = { only_law };

    fn read(&mut self, at: u64, buf: &mut [u8]) -> Result<(), Failed>
        requires { at + length buf.old ≤ 8388640 }
        ensures honest { IsWhole self.old ↔ IsWhole self.new }
        ensures bytes { IsWhole self.old → OnOk result (buf.new ≡ part_of (state_of self.old).bytes at (length buf.old)) }
        ensures seen { IsWhole self.old → (state_of self.new).bytes ≡ (state_of self.old).bytes }
        ensures images { IsWhole self.old → SameImages (MayLeave self.old) (MayLeave self.new) }
        ensures time { IsWhole self.old → Elapses (length self.old.log.calls) (length self.new.log.calls) (LeftSince self.old) (LeftSince self.new) (MayLeave self.new) }
        ensures cause { HasCause self.old.faults self.new.faults result }
        ensures exact { DoesExactly memory.Idle self.old self.new result }
    {
        self.begin(0)?;
        self.read_out(at as usize, buf);
        Ok(())
    }

    fn write(&mut self, at: u64, bytes: &[u8]) -> Result<(), Failed>
        requires { at + length bytes.now ≤ 8388640 }
        ensures honest { IsWhole self.old ↔ IsWhole self.new }
        ensures written { IsWhole self.old → OnOk result ((state_of self.new).bytes ≡ written (state_of self.old).bytes at bytes.now) }
        ensures torn { IsWhole self.old → OnErr result (DiffersIn at (length bytes.now) (state_of self.old).bytes (state_of self.new).bytes) }
        ensures images { IsWhole self.old → OnlyBytesIn at (length bytes.now) (MayLeave self.old) (MayLeave self.new) }
        ensures any_bytes { IsWhole self.old → OnOk result (AnyBytesIn at (length bytes.now) (MayLeave self.old) (MayLeave self.new)) }
        ensures time { IsWhole self.old → Elapses (length self.old.log.calls) (length self.new.log.calls) (LeftSince self.old) (LeftSince self.new) (MayLeave self.new) }
        ensures cause { HasCause self.old.faults self.new.faults result }
        ensures exact { DoesExactly (memory.Wrote at bytes.now) self.old self.new result }
    {
        self.begin(bytes.len())?;
        self.write_in(at as usize, bytes);
        Ok(())
    }

    fn sync(&mut self) -> Result<(), Failed>
        ensures honest { IsWhole self.old ↔ IsWhole self.new }
        ensures seen { IsWhole self.old → (state_of self.new).bytes ≡ (state_of self.old).bytes }
        ensures only { IsWhole self.old → OnOk result (Only (state_of self.new).bytes (MayLeave self.new)) }
        ensures images { IsWhole self.old → OnErr result (SameImages (MayLeave self.old) (MayLeave self.new)) }
        ensures time { IsWhole self.old → Elapses (length self.old.log.calls) (length self.new.log.calls) (LeftSince self.old) (LeftSince self.new) (MayLeave self.new) }
        ensures cause { HasCause self.old.faults self.new.faults result }
        ensures exact { DoesExactly memory.Synced self.old self.new result }
    {
        self.begin(0)?;
        self.settle();
        Ok(())
    }
}
