//! Sources and sinks over the readers and writers of std.

ghost use Rattle.std.specs.Prelude.{◌≡◌, None};
ghost use Rattle.cable_definitions.specs.Stream.{Writes};

use crate::stream::{Failed, Sink, Source};
use std::io::{Read, Write};

/// A source over a reader of std, which tells nothing of its bytes. Each error of the reader is
/// counted.
#[derive(Drop)]
pub struct StdSource<R> {
    reader: R,
    failed: u64,
}

impl<R> StdSource<R> {
    /// A source over this reader, with no fault so far.
    pub fn new(reader: R) -> StdSource<R>
        ensures { result ≡ record { reader = reader; failed = 0 } }
    {
        StdSource { reader, failed: 0 }
    }
}

impl<R: Read> Source for StdSource<R> {
    ghost state = { λ s. record { bytes = None; faults = s.failed } };

    fn pull(&mut self, buf: &mut [u8]) -> Result<usize, Failed> {
        match self.reader.read(buf) {
            Ok(count) => Ok(count),
            Err(_) => {
                self.failed = self.failed.saturating_add(1);
                Err(Failed)
            }
        }
    }
}

/// A sink over a writer of std, which tells nothing of its bytes. Each error of the writer is
/// counted, and so is a write that takes nothing.
#[derive(Drop)]
pub struct StdSink<W> {
    writer: W,
    failed: u64,
}

impl<W> StdSink<W> {
    /// A sink over this writer, with no fault so far.
    pub fn new(writer: W) -> StdSink<W>
        ensures { result ≡ record { writer = writer; failed = 0 } }
    {
        StdSink { writer, failed: 0 }
    }
}

impl<W: Write> Sink for StdSink<W> {
    ghost state = { λ s. record { bytes = None; faults = s.failed } };

    fn push(&mut self, bytes: &[u8]) -> Result<(), Failed> {
        let mut rest = bytes;
        while !rest.is_empty() {
            match self.writer.write(rest) {
                Ok(count) if count > 0 => rest = &rest[count..],
                _ => {
                    self.failed = self.failed.saturating_add(1);
                    return Err(Failed);
                }
            }
        }
        Ok(())
    }
}

#[cfg(test)]
mod tests;
