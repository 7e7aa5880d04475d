//! The real files and streams: the trusted edge. What they read and write is not proved.
ghost use Rattle.std.specs.Prelude.{◌≡◌, ℕ, None, take, IfOk, IfSome, OnOk, OnErr};
ghost use Rattle.std.specs.Io.KnownBytes.{Appends};
ghost use Rattle.sim_outer.specs.Files.{prefix_of};

use crate::inputs::{FetchFault, Inputs, MAX_FETCHED};
use crate::sink::{PutFailed, Sink};
use std::alloc::Global;
use std::io::{self, Printer, Read, Write};
use std::marker::Model;
use std::rt::Files;
use std::{fs, str};

/// Real files. Contracts see the count of faults.
#[derive(Drop)]
pub struct FileInputs<'a, R: Files> {
    rt: &'a R,
    faults: u64,
}

impl<'a, R: Files> Model for FileInputs<'a, R> {
    ghost use Rattle.std.specs.Prelude.{ℕ};

    ghost Value = { ℕ };

    ghost view = { λ s. s.faults };
}

impl<'a, R: Files> FileInputs<'a, R> {
    /// The files of the system.
    pub fn new(rt: &'a R) -> FileInputs<'a, R>
        ensures value { result ≡ 0 }
    {
        FileInputs { rt, faults: 0 }
    }
}

impl<'a, R: Files> Inputs for FileInputs<'a, R> {
    ghost view = { λ s. record { files = None; faults = s; calls = None } };

    fn fetch(&mut self, alloc: Global, name: &str) -> Result<Vec<u8>, FetchFault> {
        let read = match fs::open(self.rt, name) {
            Ok(mut file) => read_prefix(alloc, &mut file),
            Err(_) => Err(FetchFault::Failed),
        };
        if let Err(FetchFault::Failed) = read {
            self.faults = self.faults.saturating_add(1);
        }
        read
    }
}

/// A sink over a writer of the system. Contracts see the count of faults.
#[derive(Drop)]
pub struct WriterSink<W: Drop> {
    writer: W,
    faults: u64,
}

impl<W: Drop> Model for WriterSink<W> {
    ghost use Rattle.std.specs.Prelude.{ℕ};

    ghost Value = { ℕ };

    ghost view = { λ s. s.faults };
}

impl<W: Write + Drop> Sink for WriterSink<W> {
    ghost view = { λ s. record { bytes = None; faults = s; calls = None } };

    fn put(&mut self, piece: &[u8]) -> Result<(), PutFailed> {
        let put = write_whole(&mut self.writer, piece);
        if put.is_err() {
            self.faults = self.faults.saturating_add(1);
        }
        put
    }

    fn put_part(&mut self, part: &[u8]) -> Result<(), PutFailed> {
        self.put(part)
    }
}

/// Standard output.
pub type OutSink<'a, R> = WriterSink<Printer<'a, R>>;

impl<'a, R: Print> WriterSink<Printer<'a, R>> {
    /// The standard output of the system.
    pub fn new(rt: &'a R) -> OutSink<'a, R>
        ensures value { result ≡ 0 }
    {
        WriterSink {
            writer: io::writer(rt),
            faults: 0,
        }
    }
}

/// Standard error. It takes only text: nothing of a piece that is not UTF-8.
pub type ErrSink<'a, R> = WriterSink<ErrorWriter<'a, R>>;

impl<'a, R: Eprint> WriterSink<ErrorWriter<'a, R>> {
    /// The standard error of the system.
    pub fn new(rt: &'a R) -> ErrSink<'a, R>
        ensures value { result ≡ 0 }
    {
        WriterSink {
            writer: ErrorWriter { rt },
            faults: 0,
        }
    }
}

/// Standard error as a writer.
#[derive(Drop)]
pub struct ErrorWriter<'a, R: Eprint> {
    rt: &'a R,
}

impl<'a, R: Eprint> Write for ErrorWriter<'a, R> {
    fn write(&mut self, buf: &[u8]) -> io::Result<usize> {
        match str::from_utf8(buf) {
            Ok(text) => self.rt.eprint(text)?,
            Err(_) => return Ok(0),
        }
        Ok(buf.len())
    }

    fn flush(&mut self) -> io::Result<()> {
        Ok(())
    }
}

// The bytes of a file that a fetch returns. Each read takes at least one.
fn read_prefix<F: Read>(alloc: Global, file: &mut F) -> Result<Vec<u8>, FetchFault>
    ensures value { IfOk result (λ v. IfSome (F.remaining file.old) (λ bytes. v.items ≡ prefix_of bytes)) }
{
    let mut bytes = Vec::new(alloc);
    let mut buffer = [0u8; 16_384];
    while bytes.len() < MAX_FETCHED {
        let most = buffer.len().min(MAX_FETCHED - bytes.len());
        match file.read(&mut buffer[..most]) {
            Ok(0) => return Ok(bytes),
            Ok(count) => bytes.extend_from_slice(&buffer[..count])?,
            Err(_) => return Err(FetchFault::Failed),
        }
    }
    Ok(bytes)
}

// Writes a piece. Each write takes at least one byte.
fn write_whole<W: Write>(writer: &mut W, piece: &[u8]) -> Result<(), PutFailed>
    ensures ok { OnOk result (Appends (W.contents writer.old) (W.contents writer.new) piece.now) }
    ensures part { OnErr result ((n : ℕ) × Appends (W.contents writer.old) (W.contents writer.new) (take n piece.now)) }
{
    let mut done = 0;
    while done < piece.len() {
        match writer.write(&piece[done..]) {
            Ok(0) => return Err(PutFailed),
            Ok(count) => done += count,
            Err(_) => return Err(PutFailed),
        }
    }
    match writer.flush() {
        Ok(()) => Ok(()),
        Err(_) => Err(PutFailed),
    }
}
