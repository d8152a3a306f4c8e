//! A reader and a writer of the standard library as a source and a sink. They expose what the reader and the writer
//! expose, and count their faults.

ghost use Rattle.std.specs.Prelude.{◌≡◌, ℕ};

use desk_base::{Failed, Sink, Source};
use std::io::{Read, Write};

/// A reader as a source. Each error of the reader is a fault.
#[derive(Drop)]
pub struct StdSource<R: Read + Drop> {
    reader: R,
    faults: u64,
}

impl<R: Read + Drop> StdSource<R> {
    /// Creates a source over the reader.
    pub fn new(reader: R) -> Self
        ensures reader { result.reader ≡ reader }
        ensures faults { result.faults ≡ 0 }
    {
        StdSource { reader, faults: 0 }
    }

    /// Returns the reader and the number of its failures.
    pub fn into_parts(self) -> (R, u64)
        ensures reader { result.0 ≡ self.reader }
        ensures faults { result.1 ≡ self.faults }
    {
        (self.reader, self.faults)
    }
}

impl<R: Read + Drop> Source for StdSource<R> {
    ghost left = { λ s. R.remaining s.reader };

    ghost faults = { λ s. s.faults };

    fn take(&mut self, buffer: &mut [u8]) -> Result<usize, Failed> {
        match self.reader.read(buffer) {
            Ok(count) => Ok(count),
            Err(_) => {
                self.faults = self.faults.saturating_add(1);
                Err(Failed)
            }
        }
    }
}

/// A writer as a sink. Each error of the writer is a fault.
#[derive(Drop)]
pub struct StdSink<W: Write + Drop> {
    writer: W,
    faults: u64,
}

impl<W: Write + Drop> StdSink<W> {
    /// Creates a sink over the writer.
    pub fn new(writer: W) -> Self
        ensures writer { result.writer ≡ writer }
        ensures faults { result.faults ≡ 0 }
    {
        StdSink { writer, faults: 0 }
    }

    /// Returns the writer and the number of its failures.
    pub fn into_parts(self) -> (W, u64)
        ensures writer { result.0 ≡ self.writer }
        ensures faults { result.1 ≡ self.faults }
    {
        (self.writer, self.faults)
    }
}

impl<W: Write + Drop> Sink for StdSink<W> {
    ghost written = { λ s. W.contents s.writer };

    ghost faults = { λ s. s.faults };

    /// A write that takes nothing of a piece is a fault.
    fn put(&mut self, piece: &[u8]) -> Result<usize, Failed> {
        match self.writer.write(piece) {
            Ok(count) => {
                if count == 0 && !piece.is_empty() {
                    self.faults = self.faults.saturating_add(1);
                    return Err(Failed);
                }
                Ok(count)
            }
            Err(_) => {
                self.faults = self.faults.saturating_add(1);
                Err(Failed)
            }
        }
    }
}
