//! A line that is filled before it is written.

ghost use Rattle.std.specs.Prelude.{◌≡◌, ◌≤◌, ◌+◌, ◌-◌, ◌^◌, ◌++◌, Some, length, IsOk, OnErr};
ghost use Rattle.cable_definitions.specs.Stream.{Writes};

use crate::memory::append;
use crate::stream::{Failed, Sink};
use std::marker::Model;

/// The most bytes of a line that is filled before it is written.
const MOST_BYTES: usize = 4096;

/// A sink of at most 4,096 bytes, in which a line is filled before it is written as one piece. Contracts
/// see its bytes. It takes no memory.
#[derive(Drop)]
pub struct LineBuffer {
    bytes: [u8; 4096],
    used: usize,
}

impl Model for LineBuffer {
    ghost use Rattle.std.specs.Prelude.{◌≤◌, ℕ, List, take};

    ghost Value = { List ℕ };

    ghost view = { λ line. take line.used line.bytes };

    ghost invariant = { λ line. line.used ≤ 4096 };
}

impl LineBuffer {
    ghost use Rattle.std.specs.Prelude.{◌≡◌, [], ◌++◌, ◌+◌, ◌≤◌, length};

    /// A buffer of no byte.
    pub fn new() -> LineBuffer
        ensures { result ≡ [] }
    {
        LineBuffer {
            bytes: [0; 4096],
            used: 0,
        }
    }

    /// The bytes so far.
    pub fn as_slice(&self) -> &[u8]
        ensures value { result.now ≡ self.now }
        ensures most { length self.now ≤ 4096 }
    {
        &self.bytes[..self.used]
    }

    /// Adds bytes, for which there is room.
    fn add(&mut self, bytes: &[u8])
        requires { length self.old + length bytes.now ≤ 4096 }
        ensures { self.new ≡ self.old ++ bytes.now }
    {
        append(&mut self.bytes, self.used, bytes);
        self.used += bytes.len();
    }
}

impl Sink for LineBuffer {
    // No faults are counted: their count stands at its last value.
    ghost state = { λ line. record { bytes = Some line; faults = 2 ^ 64 - 1 } };

    /// Appends all of `bytes`.
    ///
    /// # Errors
    ///
    /// `Failed` exactly where they don't fit, and then nothing is appended.
    fn push(&mut self, bytes: &[u8]) -> Result<(), Failed>
        ensures writes { Writes result (record { bytes = Some self.old; faults = 2 ^ 64 - 1 })
            (record { bytes = Some self.new; faults = 2 ^ 64 - 1 }) bytes.now }
        ensures fits { length self.old + length bytes.now ≤ 4096 → IsOk result }
        ensures err { OnErr result (self.new ≡ self.old) }
    {
        if bytes.len() > MOST_BYTES - self.as_slice().len() {
            return Err(Failed);
        }
        self.add(bytes);
        Ok(())
    }
}
