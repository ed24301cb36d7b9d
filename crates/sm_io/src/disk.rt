// The trusted edge: the system's files and streams. Nothing is told of what they hold.
ghost use Rattle.std.specs.Prelude.{◌≡◌, ◌<◌, ◌≤◌, length, None, IfOk, IfSome, false};
ghost use Rattle.std.proofs.Common.{arith};
ghost use Rattle.sm_io.specs.Faults.{counted};

use crate::{Failed, Files, Sink, Unread};
use std::alloc::AllocGlobal;
use std::io::{ErrorKind, Write};
use std::marker::Model;
use std::os::unix::fs::FileExt;
use std::{fs, io, rt};

// A file that is open.
#[derive(Drop)]
struct OpenFile {
    name: String,
    file: fs::File,
}

/// The system's files. Contracts see the count of faults.
#[derive(Drop)]
pub struct DiskFiles<R: rt::Files<File = fs::File> + AllocGlobal + Drop> {
    runtime: R,
    // What was opened last stays open, so that a file that is read on is the one that was begun.
    last: Option<OpenFile>,
    faults: u64,
}

impl<R: rt::Files<File = fs::File> + AllocGlobal + Drop> Model for DiskFiles<R> {
    ghost use Rattle.std.specs.Prelude.{ℕ};

    ghost Value = { ℕ };

    ghost view = { λ d. d.faults };
}

impl<R: rt::Files<File = fs::File> + AllocGlobal + Drop> DiskFiles<R> {
    /// The files that the system shows, with no fault so far.
    pub fn new(runtime: R) -> Self
        ensures faults { result ≡ 0 }
    {
        DiskFiles {
            runtime,
            last: None,
            faults: 0,
        }
    }

    // Whether the file of that name was opened last.
    fn is_last(&self, name: &str) -> bool {
        match &self.last {
            Some(last) => last.name.as_str() == name,
            None => false,
        }
    }

    // Opens the file of that name.
    fn open(&mut self, name: &str) -> io::Result<()>
        ensures same { self.new ≡ self.old }
    {
        let file = fs::open(&self.runtime, name)?;
        let name = String::from_str(self.runtime.alloc(), name)?;
        self.last = Some(OpenFile { name, file });
        Ok(())
    }

    // Reads from the file of that name. A read at its start opens it anew.
    fn read_named(&mut self, name: &str, at: u64, buf: &mut [u8]) -> io::Result<usize>
        ensures bound { IfOk result (λ n. n ≤ length buf.new) }
        ensures same { self.new ≡ self.old }
    {
        if at == 0 || !self.is_last(name) {
            self.open(name)?;
        }
        match &self.last {
            Some(last) => last.file.read_at(buf, at),
            None => Ok(0),
        }
    }
}

impl<R: rt::Files<File = fs::File> + AllocGlobal + Drop> Files for DiskFiles<R> {
    ghost content = { λ _. None };

    ghost faults = { λ count. counted count };

    ghost sound = { λ _. false };

    ghost counter = { λ _. Prim.omega arith };

    /// `Absent` is the system's word for a name of no file.
    fn read_at(&mut self, name: &str, at: u64, buf: &mut [u8]) -> Result<usize, Unread> {
        let fault = match self.read_named(name, at, buf) {
            Ok(count) => return Ok(count),
            Err(fault) => fault.kind(),
        };
        if fault == ErrorKind::NotFound {
            return Err(Unread::Absent);
        }
        if fault == ErrorKind::OutOfMemory {
            return Err(Unread::NoMemory);
        }
        self.faults = self.faults.saturating_add(1);
        Err(Unread::Failed)
    }
}

/// One of the system's streams. Contracts see the count of faults.
#[derive(Drop)]
pub struct StdSink<W: Write + Drop> {
    writer: W,
    faults: u64,
}

impl<W: Write + Drop> Model for StdSink<W> {
    ghost use Rattle.std.specs.Prelude.{ℕ};

    ghost Value = { ℕ };

    ghost view = { λ s. s.faults };
}

impl<W: Write + Drop> StdSink<W> {
    /// A sink that writes there, with no fault so far.
    pub fn new(writer: W) -> Self
        ensures faults { result ≡ 0 }
    {
        StdSink { writer, faults: 0 }
    }

    // Writes some bytes, and lets none of them wait in the stream.
    fn write_through(&mut self, piece: &[u8]) -> Option<usize>
        ensures bound { IfSome result (λ n. (0 < n) × (n ≤ length piece.now)) }
        ensures same { self.new ≡ self.old }
    {
        match self.writer.write(piece) {
            Ok(count) if count > 0 => match self.writer.flush() {
                Ok(()) => Some(count),
                Err(_) => None,
            },
            _ => None,
        }
    }
}

impl<W: Write + Drop> Sink for StdSink<W> {
    ghost taken = { λ _. None };

    ghost faults = { λ count. counted count };

    ghost sure = { λ _. 0 };

    ghost counter = { λ _. Prim.omega arith };

    fn put(&mut self, piece: &[u8]) -> Result<usize, Failed> {
        if piece.is_empty() {
            return Ok(0);
        }
        match self.write_through(piece) {
            Some(count) => Ok(count),
            None => {
                self.faults = self.faults.saturating_add(1);
                Err(Failed)
            }
        }
    }
}
