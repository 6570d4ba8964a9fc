//! The disk of the program: a file.

ghost use Rattle.std.specs.Prelude.{◌≡◌, [], length};

use crate::disk::Disk;
use host_ports::Failed;
use std::fs::{OpenFile, OpenOptions};
use std::io::{Read, Seek, SeekFrom, Write};
use std::rt::Files;
use std::{fs, io};

/// The file that the disk is kept in.
const STORE: &str = "volume.store";

/// The folder of that file.
const FOLDER: &str = ".";

/// The bytes of a disk.
const DISK_SIZE: u64 = 8_388_640;

/// The disk of the program, at the edge of what is proved. It tells nothing.
///
/// It works on the file `volume.store`, which the first call makes full of zeros, or makes longer with zeros where it is too
/// short. Each error of the system is a failed call and is counted. A `sync` brings the file to the device.
#[derive(Drop)]
pub struct FileDisk<R: Files + Drop> {
    rt: R,
    file: Option<R::File>,
    faults: u64,
}

/// Opens the file, at its full length, and brings it and its name to the device.
fn open_store<R: Files>(files: &R) -> io::Result<R::File> {
    let mut options = OpenOptions::new();
    options.read(true);
    options.write(true);
    options.create(true);
    let file = options.open(files, STORE)?;
    if file.metadata()?.len() < DISK_SIZE {
        file.set_len(DISK_SIZE)?;
    }
    file.sync_all()?;
    fs::open(files, FOLDER)?.sync_all()?;
    Ok(file)
}

impl<R: Files + Drop> FileDisk<R> {
    /// A disk on the files of that runtime, of which no call has failed. It opens no file yet.
    pub fn new(rt: R) -> FileDisk<R>
        ensures { result.faults ≡ 0 }
    {
        FileDisk {
            rt,
            file: None,
            faults: 0,
        }
    }

    /// Reads from the file.
    fn read_file(&mut self, at: u64, buf: &mut [u8]) -> io::Result<()>
        ensures { self.new.faults ≡ self.old.faults }
    {
        if self.file.is_none() {
            self.file = Some(open_store(&self.rt)?);
        }
        match &mut self.file {
            Some(file) => {
                file.seek(SeekFrom::Start(at))?;
                file.read_exact(buf)
            }
            None => Ok(()),
        }
    }

    /// Writes to the file.
    fn write_file(&mut self, at: u64, bytes: &[u8]) -> io::Result<()>
        ensures { self.new.faults ≡ self.old.faults }
    {
        if self.file.is_none() {
            self.file = Some(open_store(&self.rt)?);
        }
        match &mut self.file {
            Some(file) => {
                file.seek(SeekFrom::Start(at))?;
                file.write_all(bytes)
            }
            None => Ok(()),
        }
    }

    /// Brings the file to the device.
    fn sync_file(&mut self) -> io::Result<()>
        ensures { self.new.faults ≡ self.old.faults }
    {
        if self.file.is_none() {
            self.file = Some(open_store(&self.rt)?);
        }
        match &self.file {
            Some(file) => file.sync_all(),
            None => Ok(()),
        }
    }
}

impl<R: Files + Drop> Disk for FileDisk<R> {
    ghost use Rattle.std.specs.Prelude.{[]};

    ghost honest = { λ _. ⊥ };

    ghost seen = { λ _. [] };

    ghost may_leave = { λ _ _. ⊥ };

    ghost moment = { λ _. 0 };

    ghost left_since = { λ _ _ _. ⊥ };

    ghost faults = { λ d. d.faults };

    ghost size = { λ _ h. absurd h };

    ghost shown = { λ _ h. absurd h };

    ghost counts_now = { λ _ _ _ h _ _. absurd h };

    ghost only_now = { λ _ _ h _. absurd h };

    fn read(&mut self, at: u64, buf: &mut [u8]) -> Result<(), Failed> {
        if self.read_file(at, buf).is_err() {
            self.faults = self.faults.saturating_add(1);
            return Err(Failed);
        }
        Ok(())
    }

    fn write(&mut self, at: u64, bytes: &[u8]) -> Result<(), Failed> {
        if self.write_file(at, bytes).is_err() {
            self.faults = self.faults.saturating_add(1);
            return Err(Failed);
        }
        Ok(())
    }

    fn sync(&mut self) -> Result<(), Failed> {
        if self.sync_file().is_err() {
            self.faults = self.faults.saturating_add(1);
            return Err(Failed);
        }
        Ok(())
    }
}
