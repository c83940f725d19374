//! The sources, sinks and shelves over the operating system: readers, writers and files.

ghost use Rattle.std.specs.Prelude.{None, IfOk, ◌<◌, ◌≤◌, length};

use crate::shelf::Shelf;
use crate::sink::Sink;
use crate::source::{Failed, Source};
use std::fs;
use std::io::{ErrorKind, Read, Write};
use std::rt::Files;

// One read, which is tried again where it was interrupted.
fn read_some<R: Read>(reader: &mut R, buf: &mut [u8]) -> Result<usize, Failed>
    ensures { IfOk result (λ n. n ≤ length buf.old) }
{
    for _ in 0..u64::MAX {
        match reader.read(buf) {
            Ok(count) => return Ok(count),
            Err(error) if error.kind() == ErrorKind::Interrupted => {}
            Err(_) => break,
        }
    }
    Err(Failed)
}

// One write, which is tried again where it was interrupted. A write of no byte has failed.
fn write_some<W: Write>(writer: &mut W, piece: &[u8]) -> Result<usize, Failed>
    ensures { IfOk result (λ n. (0 < n) × (n ≤ length piece.now)) }
{
    for _ in 0..u64::MAX {
        match writer.write(piece) {
            Ok(0) => break,
            Ok(count) => return Ok(count),
            Err(error) if error.kind() == ErrorKind::Interrupted => {}
            Err(_) => break,
        }
    }
    Err(Failed)
}

/// A reader from outside as a source. It tells neither its bytes nor the number of its calls.
#[derive(Drop)]
pub struct StdSource<R: Read> {
    reader: R,
    faults: u64,
}

impl<R: Read> StdSource<R> {
    /// The source of what this reader reads, with no fault so far.
    pub fn new(reader: R) -> StdSource<R> {
        StdSource { reader, faults: 0 }
    }
}

impl<R: Read> Source for StdSource<R> {
    ghost left = { λ _. None };

    ghost faults = { λ s. s.faults };

    ghost calls = { λ _. None };

    fn take(&mut self, buf: &mut [u8]) -> Result<usize, Failed> {
        match read_some(&mut self.reader, buf) {
            Ok(count) => Ok(count),
            Err(failed) => {
                self.faults = self.faults.saturating_add(1);
                Err(failed)
            }
        }
    }
}

/// A writer to the outside as a sink. It tells nothing, so it stands for every list.
#[derive(Drop)]
pub struct StdSink<W: Write> {
    writer: W,
    faults: u64,
}

impl<W: Write> StdSink<W> {
    /// The sink that writes by this writer, with no fault so far.
    pub fn new(writer: W) -> StdSink<W> {
        StdSink { writer, faults: 0 }
    }
}

impl<W: Write> Sink for StdSink<W> {
    ghost stands = { λ _ _. Unit {0} };

    ghost faults = { λ s. s.faults };

    fn put(&mut self, piece: &[u8]) -> Result<usize, Failed> {
        match write_some(&mut self.writer, piece) {
            Ok(count) => Ok(count),
            Err(failed) => {
                self.faults = self.faults.saturating_add(1);
                Err(failed)
            }
        }
    }
}

/// The files of the current folder, by their names as they stand. It tells no texts.
#[derive(Drop)]
pub struct DirShelf<'a, R: Files> {
    files: &'a R,
    faults: u64,
}

impl<'a, R: Files> DirShelf<'a, R> {
    /// The shelf of the files that this runtime opens, with no fault so far.
    pub fn new(files: &'a R) -> DirShelf<'a, R> {
        DirShelf { files, faults: 0 }
    }
}

// Fills the buffer from its front until it is full or the reader has no more.
fn fill<R: Read>(reader: &mut R, buf: &mut [u8]) -> Result<usize, Failed>
    ensures { IfOk result (λ n. n ≤ length buf.old) }
{
    let mut at = 0;
    while at < buf.len() {
        match read_some(reader, &mut buf[at..]) {
            Ok(0) => break,
            Ok(count) => at += count,
            Err(_) => return Err(Failed),
        }
    }
    Ok(at)
}

impl<R: Files> Shelf for DirShelf<'_, R> {
    ghost texts = { λ _. None };

    ghost faults = { λ s. s.faults };

    fn fetch(&mut self, name: &str, buf: &mut [u8]) -> Result<usize, Failed> {
        if let Ok(mut file) = fs::open(self.files, name) {
            if let Ok(count) = fill(&mut file, buf) {
                return Ok(count);
            }
        }
        self.faults = self.faults.saturating_add(1);
        Err(Failed)
    }
}
