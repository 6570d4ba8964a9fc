//! The record of a disk in memory.

ghost use Rattle.std.specs.Prelude.{◌≡◌, ◌↔◌, ℕ, ◌≤◌, ◌<◌, ◌+◌, ◌-◌, List, [], ◌∷◌, ◌++◌, IfOk, IsTrue, length, take, drop, map, replicate, All};
ghost use Rattle.safe_save.specs.Disk.{written};
ghost use Rattle.safe_save.specs.Memory.{noted, fresh, after_calls, image_of, put_call, put_calls, IsWithin, IsSettled, HasNoSync};
ghost use Rattle.safe_save.specs.Memory as memory;
ghost use Rattle.safe_save.specs.Entries.{call_of, IsKnown};

use crate::fill::Fill;
use std::alloc::{AllocError, Global};
use std::marker::Model;

/// What a call did.
#[derive(Clone, Copy, Drop)]
enum Entry {
    /// It wrote `count` bytes to place `at`, those of the record from `from` on.
    Wrote {
        at: usize,
        from: usize,
        count: usize,
    },
    /// It was a sync.
    Synced,
    /// It changed nothing.
    Idle,
}

/// What calls did, in order. Contracts see the calls, how many it has room for, and how many bytes more of writes.
#[derive(Drop)]
pub struct Record {
    entries: Vec<Entry>,
    payload: Vec<u8>,
    most: u32,
    room: usize,
}

impl Model for Record {
    ghost use Rattle.std.specs.Prelude.{◌≤◌, ◌-◌, map, All, length, vec_len, vec_capacity};
    ghost use Rattle.safe_save.specs.Memory.{Log};
    ghost use Rattle.safe_save.specs.Entries.{call_of, IsKnown};

    ghost Value = { Log };

    ghost view = { λ r. record { calls = map (call_of r.payload.items) r.entries.items; most = r.most; room = r.room } };

    ghost invariant = { λ r. record { known : All (IsKnown (length r.payload.items)) r.entries.items; spare : r.room ≤ vec_capacity r.payload - vec_len r.payload; places : r.most ≤ vec_capacity r.entries } };
}

impl Record {
    /// An empty record with room for so many calls, which write `room` bytes in all.
    pub fn new(alloc: Global, most: u32, room: usize) -> Result<Record, AllocError>
        ensures { IfOk result (λ r. r ≡ record { calls = []; most = most; room = room }) }
    {
        let entries = Vec::with_capacity(alloc, most as usize)?;
        let payload = Vec::with_capacity(alloc, room)?;
        Ok(Record {
            entries,
            payload,
            most,
            room,
        })
    }

    /// Whether it has no room for a call more.
    pub fn is_full(&self) -> bool
        ensures { IsTrue result ↔ (self.now.most ≤ length self.now.calls) }
    {
        self.most as usize <= self.entries.len()
    }

    /// How many bytes more it has room for.
    pub fn room(&self) -> usize
        ensures { result ≡ self.now.room }
    {
        self.room
    }

    /// Notes a call that changed nothing.
    pub fn note_idle(&mut self)
        requires { length self.old.calls < self.old.most }
        ensures { self.new ≡ noted self.old memory.Idle }
    {
        if self.entries.push(Entry::Idle).is_err() {
            unreachable!();
        }
    }

    /// Notes a sync.
    pub fn note_sync(&mut self)
        requires { length self.old.calls < self.old.most }
        ensures { self.new ≡ noted self.old memory.Synced }
    {
        if self.entries.push(Entry::Synced).is_err() {
            unreachable!();
        }
    }

    /// Notes a write of those bytes from that place on.
    pub fn note_write(&mut self, at: usize, bytes: &[u8])
        requires place { length self.old.calls < self.old.most }
        requires room { length bytes.now ≤ self.old.room }
        ensures { self.new ≡ record (noted self.old (memory.Wrote at bytes.now)) { room = self.old.room - length bytes.now } }
    {
        let from = self.payload.len();
        let count = bytes.len();
        if self.payload.extend_from_slice(bytes).is_err() {
            unreachable!();
        }
        self.room -= count;
        if self.entries.push(Entry::Wrote { at, from, count }).is_err() {
            unreachable!();
        }
    }

    /// Draws the image after the first calls, as many as these, the ranges since the last sync filled so. It begins with the
    /// image at the start.
    pub fn draw(&self, call: u32, fill: Fill, image: &mut [u8])
        requires within { All IsWithin self.now.calls }
        requires size { length image.old ≡ 8388640 }
        ensures { image.new ≡ image_of fill (after_calls (take call self.now.calls) (fresh image.old)) }
    {
        let count = self.entries.len().min(call as usize);
        draw(&self.entries[..count], &self.payload, fill, image);
    }
}

/// Writes the bytes over those of the image from that place on.
pub fn overwrite(image: &mut [u8], at: usize, bytes: &[u8])
    requires { at + length bytes.now ≤ length image.old }
    ensures { image.new ≡ written image.old at bytes.now }
{
    image[at..at + bytes.len()].copy_from_slice(bytes);
}

/// Fills `count` bytes of the image from that place on.
fn fill_part(image: &mut [u8], at: usize, count: usize, byte: u8)
    requires { at + count ≤ length image.old }
    ensures { image.new ≡ written image.old at (replicate count byte) }
{
    image[at..at + count].fill(byte);
}

/// Puts what an entry wrote into the image, filled so.
fn put(entry: Entry, payload: &[u8], fill: Fill, image: &mut [u8])
    requires known { IsKnown (length payload.now) entry }
    requires within { IsWithin (call_of payload.now entry) }
    requires size { length image.old ≡ 8388640 }
    ensures { image.new ≡ put_call fill (call_of payload.now entry) image.old }
{
    if let Entry::Wrote { at, from, count } = entry {
        match fill {
            Fill::Zeros => fill_part(image, at, count, 0),
            Fill::Ones => fill_part(image, at, count, 255),
            Fill::Written => overwrite(image, at, &payload[from..from + count]),
        }
    }
}

/// Puts what the entries wrote into the image, filled so.
fn put_all(entries: &[Entry], payload: &[u8], fill: Fill, image: &mut [u8])
    requires known { All (IsKnown (length payload.now)) entries.now }
    requires within { All (λ entry. IsWithin (call_of payload.now entry)) entries.now }
    requires size { length image.old ≡ 8388640 }
    ensures { image.new ≡ put_calls fill (map (call_of payload.now) entries.now) image.old }
{
    for entry in entries {
        put(*entry, payload, fill, image);
    }
}

/// How many entries there are up to the last sync, and with it.
fn synced_count(entries: &[Entry]) -> usize
    ensures bound { result ≤ length entries.now }
    ensures settled { (payload image : List ℕ) → IsSettled (after_calls (map (call_of payload) (take result entries.now)) (fresh image)) }
    ensures rest { (payload : List ℕ) → HasNoSync (map (call_of payload) (drop result entries.now)) }
{
    let mut count = entries.len();
    while count > 0 {
        if let Entry::Synced = entries[count - 1] {
            return count;
        }
        count -= 1;
    }
    0
}

/// Draws the image after these entries, the ranges since the last sync filled so. It begins with the image at the start.
fn draw(entries: &[Entry], payload: &[u8], fill: Fill, image: &mut [u8])
    requires known { All (IsKnown (length payload.now)) entries.now }
    requires within { All (λ entry. IsWithin (call_of payload.now entry)) entries.now }
    requires size { length image.old ≡ 8388640 }
    ensures { image.new ≡ image_of fill (after_calls (map (call_of payload.now) entries.now) (fresh image.old)) }
{
    let synced = synced_count(entries);
    put_all(&entries[..synced], payload, Fill::Written, image);
    put_all(&entries[synced..], payload, fill, image);
}
