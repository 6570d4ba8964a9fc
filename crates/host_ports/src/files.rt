//! The host of the program: its standard streams and files.

ghost use Rattle.std.specs.Prelude.{◌≡◌, ◌≢◌, ℕ, ◌<◌, ◌≤◌, [], ◌∷◌, length, slice_index_or, Ok, IfOk, IsErr, MatchResult};
ghost use Rattle.host_ports.specs.Files.{TakesSome, counted_at, counted_port};
ghost use Rattle.host_ports.specs.Ports.{HasCause};

use crate::host::{Failed, Host};
use std::io::{Read, Write};
use std::rt::Files;
use std::{fs, io};

/// Where ports 1 to 4 are pulled from, and where they are pushed to.
const IMAGES: [&str; 4] = ["volume1.img", "volume2.img", "volume3.img", "volume4.img"];

const RESULTS: [&str; 4] = ["volume1.new", "volume2.new", "volume3.new", "volume4.new"];

/// The host of the program, at the edge of what is proved. It tells no bytes.
///
/// Port 0 is pulled from standard input and pushed to standard output. Port k is pulled from the file `volume<k>.img` and pushed
/// to the file `volume<k>.new`, which the first push to it makes, or empties where it is there. Each error of the system is a
/// failed call and is counted, a missing file at each pull of it.
#[derive(Drop)]
pub struct FileHost<R: Files + Input + Print + Drop> {
    rt: R,
    input: R::Reader,
    images: [Option<R::File>; 4],
    results: [Option<R::File>; 4],
    pulls: [u64; 5],
    pushes: [u64; 5],
}

impl<R: Files + Input + Print + Drop> FileHost<R> {
    /// A host on the streams and files of that runtime, where nothing has failed. It opens no file yet.
    pub fn new(rt: R) -> FileHost<R>
        ensures pulls { result.pulls ≡ 0 ∷ 0 ∷ 0 ∷ 0 ∷ 0 ∷ [] }
        ensures pushes { result.pushes ≡ 0 ∷ 0 ∷ 0 ∷ 0 ∷ 0 ∷ [] }
    {
        let input = rt.reader();
        FileHost {
            rt,
            input,
            images: [None, None, None, None],
            results: [None, None, None, None],
            pulls: [0; 5],
            pushes: [0; 5],
        }
    }

    /// Reads from the stream or the image of a port, which the first read opens.
    fn read(&mut self, port: u8, buf: &mut [u8]) -> io::Result<usize>
        requires { port < 5 }
        ensures bound { IfOk result (λ n. n ≤ length buf.old) }
        ensures pulls { self.new.pulls ≡ self.old.pulls }
        ensures pushes { self.new.pushes ≡ self.old.pushes }
    {
        if port == 0 {
            return self.input.read(buf);
        }
        let k = port as usize - 1;
        if self.images[k].is_none() {
            self.images[k] = Some(fs::open(&self.rt, IMAGES[k])?);
        }
        match &mut self.images[k] {
            Some(file) => file.read(buf),
            None => Ok(0),
        }
    }

    /// Writes to the stream or the result of a port, which the first write makes.
    fn write(&mut self, port: u8, piece: &[u8]) -> io::Result<usize>
        requires { port < 5 }
        ensures bound { IfOk result (λ n. n ≤ length piece.now) }
        ensures pulls { self.new.pulls ≡ self.old.pulls }
        ensures pushes { self.new.pushes ≡ self.old.pushes }
    {
        if port == 0 {
            return self.rt.write_some(piece);
        }
        let k = port as usize - 1;
        if self.results[k].is_none() {
            self.results[k] = Some(fs::create(&self.rt, RESULTS[k])?);
        }
        match &mut self.results[k] {
            Some(file) => file.write(piece),
            None => Ok(0),
        }
    }
}

/// The answer of a call at a port that the system answered so. It fails exactly where the system did, and is counted then; else it
/// moves as many bytes as the system did.
fn answer(counts: &mut [u64; 5], port: u8, moved: io::Result<usize>) -> Result<usize, Failed>
    requires { port < 5 }
    ensures moves { MatchResult moved (λ n. result ≡ Ok n) (λ _. IsErr result) }
    ensures counts { MatchResult moved (λ _. counts.new ≡ counts.old) (λ _. counts.new ≡ counted_at counts.old port) }
    ensures cause { HasCause (slice_index_or counts.old port 0) (slice_index_or counts.new port 0) result }
    ensures others { (p : ℕ) → p ≢ port → slice_index_or counts.new p 0 ≡ slice_index_or counts.old p 0 }
{
    match moved {
        Ok(count) => Ok(count),
        Err(_) => {
            let failed = counts[port as usize];
            counts[port as usize] = failed.saturating_add(1);
            Err(Failed)
        }
    }
}

/// The count of a write, where nothing taken of a piece that isn't empty is an error.
fn some_taken(piece: &[u8], taken: io::Result<usize>) -> io::Result<usize>
    ensures { MatchResult taken (λ n. TakesSome (length piece.now) n result) (λ _. IsErr result) }
{
    match taken {
        Ok(0) if !piece.is_empty() => Err(io::ErrorKind::WriteZero.into()),
        _ => taken,
    }
}

impl<R: Files + Input + Print + Drop> Host for FileHost<R> {
    ghost ports = { λ h port. counted_port h.pulls h.pushes port };

    fn pull(&mut self, port: u8, buf: &mut [u8]) -> Result<usize, Failed> {
        let moved = self.read(port, buf);
        answer(&mut self.pulls, port, moved)
    }

    fn push(&mut self, port: u8, piece: &[u8]) -> Result<usize, Failed> {
        let taken = some_taken(piece, self.write(port, piece));
        answer(&mut self.pushes, port, taken)
    }
}
