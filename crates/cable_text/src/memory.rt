//! Sources and sinks in memory, some calls of which fail.

ghost use Rattle.std.specs.Prelude.{◌≡◌, ◌≢◌, ℕ, ◌<◌, ◌≤◌, ◌↔◌, [], List, Some, length, take, ◌+◌, ◌^◌, ◌++◌, IsTrue, IfOk, OnOk, OnErr};
ghost use Rattle.std.specs.Bool.{OnTrue, OnFalse};
ghost use Rattle.cable_definitions.specs.Stream.{Rose, GivesFront, IsAtEnd, StaysSilent, Writes};
ghost use Rattle.cable_text.specs.Memory.{FailsNext, FailsAsListed, GivesPiece, TakesAll, TakesPart};

use crate::stream::{Failed, Sink, Source};
use std::alloc::{AllocError, Global};
use std::marker::Model;

/// A source over bytes in memory, some calls of which fail. Contracts see the bytes that are left,
/// the piece, the numbers of the failing calls, and the counts of calls and of failed calls.
#[derive(Drop)]
pub struct MemorySource {
    bytes: Vec<u8>,
    start: usize,
    piece: usize,
    fails: Vec<u64>,
    calls: u64,
    failed: u64,
}

impl Model for MemorySource {
    ghost use Rattle.std.specs.Prelude.{◌≤◌, length, drop};
    ghost use Rattle.cable_text.specs.Memory.{SourceState};

    ghost Value = { SourceState };

    ghost view = { λ s. record { left = drop s.start s.bytes.items; piece = s.piece; fails = s.fails.items; calls = s.calls; failed = s.failed } };

    ghost invariant = { λ s. (s.start ≤ length s.bytes.items) × (1 ≤ s.piece) × (s.failed ≤ s.calls) };
}

impl MemorySource {
    /// A source of these bytes, which gives at most `piece` of them, at least one, per call. Exactly
    /// the calls whose numbers, from 1, stand in `fails` fail, and they take no byte.
    pub fn new(bytes: Vec<u8>, piece: usize, fails: Vec<u64>) -> MemorySource
        requires { 1 ≤ piece }
        ensures { result ≡ record { left = bytes.items; piece = piece; fails = fails.items; calls = 0; failed = 0 } }
    {
        MemorySource {
            bytes,
            start: 0,
            piece,
            fails,
            calls: 0,
            failed: 0,
        }
    }

    /// The number of pulls so far, which stays at 2^64 - 1 once it is there.
    pub fn calls(&self) -> u64
        ensures { result ≡ self.now.calls }
    {
        self.calls
    }
}

impl Source for MemorySource {
    ghost state = { λ s. record { bytes = Some s.left; faults = s.failed } };

    /// Gives as many bytes as `piece`, `buf` and what is left allow.
    ///
    /// # Errors
    ///
    /// `Failed` exactly where the number of this call is listed; the count of faults rises by one.
    fn pull(&mut self, buf: &mut [u8]) -> Result<usize, Failed>
        requires { 0 < length buf.old }
        ensures bound { IfOk result (λ n. n ≤ length buf.old) }
        ensures bytes { IfOk result (λ n. GivesFront (Some self.old.left) (Some self.new.left) (take n buf.new)) }
        ensures end { IfOk result (λ n. n ≡ 0 → IsAtEnd (Some self.old.left)) }
        ensures silent { StaysSilent (Some self.old.left) (Some self.new.left) }
        ensures failed { OnErr result (Rose self.old.failed self.new.failed) }
        ensures count { self.old.failed ≤ self.new.failed }
        ensures gives { IfOk result (λ n. GivesPiece self.old self.new (length buf.old) n) }
        ensures fails { OnErr result (FailsAsListed self.old self.new) }
    {
        if is_listed(&self.fails, self.calls) {
            self.calls += 1;
            self.failed += 1;
            return Err(Failed);
        }
        let left = &self.bytes[self.start..];
        let count = left.len().min(self.piece).min(buf.len());
        buf[..count].copy_from_slice(&left[..count]);
        self.start += count;
        self.calls = self.calls.saturating_add(1);
        Ok(count)
    }
}

/// A sink in memory with a fixed room, some calls of which fail. Contracts see the bytes taken, the
/// room, the numbers of the failing calls, and the counts of calls and of failed calls.
#[derive(Drop)]
pub struct MemorySink {
    bytes: Vec<u8>,
    used: usize,
    fails: Vec<u64>,
    calls: u64,
    failed: u64,
}

impl Model for MemorySink {
    ghost use Rattle.std.specs.Prelude.{◌≤◌, length, take};
    ghost use Rattle.cable_text.specs.Memory.{SinkState};

    ghost Value = { SinkState };

    ghost view = { λ s. record { taken = take s.used s.bytes.items; room = length s.bytes.items; fails = s.fails.items; calls = s.calls; failed = s.failed } };

    ghost invariant = { λ s. s.used ≤ length s.bytes.items };
}

impl MemorySink {
    /// A sink that takes at most `room` bytes in all. Exactly the calls whose numbers, from 1, stand
    /// in `fails` fail and take nothing, beside those whose bytes don't fit.
    ///
    /// # Errors
    ///
    /// `AllocError` where there is no memory for the room.
    pub fn new(alloc: Global, room: usize, fails: Vec<u64>) -> Result<MemorySink, AllocError>
        ensures { IfOk result (λ s. s ≡ record { taken = []; room = room; fails = fails.items; calls = 0; failed = 0 }) }
    {
        let bytes = vec![in alloc; 0; room]?;
        Ok(MemorySink {
            bytes,
            used: 0,
            fails,
            calls: 0,
            failed: 0,
        })
    }

    /// The number of pushes so far, which stays at 2^64 - 1 once it is there.
    pub fn calls(&self) -> u64
        ensures { result ≡ self.now.calls }
    {
        self.calls
    }

    /// The bytes taken so far.
    pub fn taken(&self) -> &[u8]
        ensures { result.now ≡ self.now.taken }
    {
        &self.bytes[..self.used]
    }

    /// Takes the bytes of one call, and answers whether it took them all.
    fn take(&mut self, bytes: &[u8]) -> bool
        ensures all { OnTrue result (TakesAll self.old self.new bytes.now) }
        ensures part { OnFalse result (TakesPart self.old self.new bytes.now) }
        ensures count { self.old.failed < 2 ^ 64 }
    {
        let is_failing = is_listed(&self.fails, self.calls);
        self.calls = self.calls.saturating_add(1);
        if is_failing {
            self.failed = self.failed.saturating_add(1);
            return false;
        }
        let room = self.bytes.len() - self.used;
        if bytes.len() > room {
            append(&mut self.bytes, self.used, &bytes[..room]);
            self.used += room;
            self.failed = self.failed.saturating_add(1);
            return false;
        }
        append(&mut self.bytes, self.used, bytes);
        self.used += bytes.len();
        true
    }
}

impl Sink for MemorySink {
    ghost state = { λ s. record { bytes = Some s.taken; faults = s.failed } };

    /// Appends all of `bytes`, or as many as fit.
    ///
    /// # Errors
    ///
    /// `Failed` exactly where the number of this call is listed, and then nothing is appended, or
    /// `bytes` don't fit in the room. The count of faults rises by one, up to 2^64 - 1.
    fn push(&mut self, bytes: &[u8]) -> Result<(), Failed>
        ensures writes { Writes result (record { bytes = Some self.old.taken; faults = self.old.failed })
            (record { bytes = Some self.new.taken; faults = self.new.failed }) bytes.now }
        ensures takes { OnOk result (TakesAll self.old self.new bytes.now) }
        ensures fails { OnErr result (TakesPart self.old self.new bytes.now) }
    {
        if self.take(bytes) {
            return Ok(());
        }
        Err(Failed)
    }
}

/// Whether the call after this many is listed.
fn is_listed(fails: &[u64], calls: u64) -> bool
    ensures { IsTrue result ↔ FailsNext fails.now calls }
{
    if calls == u64::MAX {
        return false;
    }
    fails.contains(&(calls + 1))
}

/// Puts bytes behind those that are used.
pub(crate) fn append(storage: &mut [u8], used: usize, bytes: &[u8])
    requires { used + length bytes.now ≤ length storage.old }
    ensures { take (used + length bytes.now) storage.new ≡ take used storage.old ++ bytes.now }
{
    storage[used..used + bytes.len()].copy_from_slice(bytes);
}
