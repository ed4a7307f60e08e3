//! The bytes that were pulled from a source and aren't read yet, and the last line.

ghost use Rattle.std.specs.Prelude.{◌≡◌, ◌≢◌, ℕ, ◌+◌, ◌-◌, ◌<◌, ◌≤◌, [], length, take, drop, slice_index, slice_get, IfOk, IfSome, IfNone, OnErr, OnOk, IsTrue, ◌++◌, List};
ghost use Rattle.cable_definitions.specs.Text.{HasNoNewline};
ghost use Rattle.cable_definitions.specs.Stream.{FaultsRose, FaultsOnlyRise, IsAtEnd};
ghost use Rattle.std.specs.Bool.{OnTrue, OnFalse};
ghost use Rattle.cable_text.specs.Lines.{to_come, CutsLine, ReadsPiece};

use crate::fault::{Line, LineFault};
use crate::stream::{Failed, Source};
use std::alloc::{AllocError, Global};
use std::marker::Model;

/// The most bytes that are pending: those of a longest line and its newline.
const ROOM: usize = 4097;

/// The last line, and the bytes that were pulled and belong to no line yet.
#[derive(Drop)]
pub struct Buffer {
    bytes: Vec<u8>,
    text_start: usize,
    text_end: usize,
    start: usize,
    end: usize,
}

impl Model for Buffer {
    ghost use Rattle.std.specs.Prelude.{◌≡◌, ◌≤◌, ◌-◌, length, take, drop};
    ghost use Rattle.cable_text.specs.Lines.{BufferState};

    ghost Value = { BufferState };

    ghost view = { λ b. record { text = take (b.text_end - b.text_start) (drop b.text_start b.bytes.items); pending = take (b.end - b.start) (drop b.start b.bytes.items) } };

    ghost invariant = { λ b. (length b.bytes.items ≡ 4097) × (b.text_start ≤ b.text_end) × (b.text_end ≤ 4097) × (b.start ≤ b.end) × (b.end ≤ 4097) };
}

impl Buffer {
    /// An empty buffer.
    ///
    /// # Errors
    ///
    /// `AllocError` where there is no memory.
    pub fn new(alloc: Global) -> Result<Buffer, AllocError>
        ensures { IfOk result (λ b. b ≡ record { text = []; pending = [] }) }
    {
        let bytes = vec![in alloc; 0; ROOM]?;
        Ok(Buffer {
            bytes,
            text_start: 0,
            text_end: 0,
            start: 0,
            end: 0,
        })
    }

    /// The last line.
    pub fn text(&self) -> &[u8]
        ensures { result.now ≡ self.now.text }
    {
        &self.bytes[self.text_start..self.text_end]
    }

    /// The bytes that belong to no line yet.
    pub fn pending(&self) -> &[u8]
        ensures bytes { result.now ≡ self.now.pending }
        ensures room { length self.now.pending ≤ 4097 }
    {
        &self.bytes[self.start..self.end]
    }

    /// Lets the pending bytes go.
    pub fn clear(&mut self)
        ensures { self.new.pending ≡ [] }
    {
        self.start = self.end;
    }

    /// Makes the first bytes that are pending the last line, and lets the byte after them go.
    fn cut(&mut self, len: usize)
        requires { len < length self.old.pending }
        ensures text { self.new.text ≡ take len self.old.pending }
        ensures pending { self.new.pending ≡ drop (len + 1) self.old.pending }
    {
        self.text_start = self.start;
        self.text_end = self.start + len;
        self.start += len + 1;
    }

    /// Pulls more bytes behind those that are pending, and answers how many. The last line is lost.
    ///
    /// # Errors
    ///
    /// `Failed` only where the source's count of faults rose.
    pub fn fill<S: Source>(&mut self, src: &mut S) -> Result<usize, Failed>
        requires { length self.old.pending < 4097 }
        ensures grows { IfOk result (λ n. length self.new.pending ≡ length self.old.pending + n) }
        ensures front { take (length self.old.pending) self.new.pending ≡ self.old.pending }
        ensures bytes { OnOk result (to_come self.new.pending (S.state src.new).bytes ≡ to_come self.old.pending (S.state src.old).bytes) }
        ensures end { IfOk result (λ n. n ≡ 0 → IsAtEnd (S.state src.old).bytes) }
        ensures failed { OnErr result (FaultsRose (S.state src.old) (S.state src.new)) }
        ensures count { FaultsOnlyRise (S.state src.old) (S.state src.new) }
    {
        self.bytes.rotate_left(self.start);
        self.end -= self.start;
        self.start = 0;
        self.text_start = 0;
        self.text_end = 0;
        let count = pull_behind(src, &mut self.bytes, self.end)?;
        self.end += count;
        Ok(count)
    }

    /// The first byte that is pending.
    fn first(&self) -> Option<u8>
        ensures { result ≡ slice_get self.now.pending 0 }
    {
        self.pending().first().copied()
    }

    /// The next byte, which stays pending; None at the end.
    ///
    /// # Errors
    ///
    /// `Failed` only where the source's count of faults rose.
    pub fn peek<S: Source>(&mut self, src: &mut S) -> Result<Option<u8>, Failed>
        ensures some { IfOk result (λ o. IfSome o (λ b. slice_get self.new.pending 0 ≡ Some b)) }
        ensures none { IfOk result (λ o. IfNone o (IsAtEnd (to_come self.old.pending (S.state src.old).bytes))) }
        ensures bytes { OnOk result (to_come self.new.pending (S.state src.new).bytes ≡ to_come self.old.pending (S.state src.old).bytes) }
        ensures failed { OnErr result (FaultsRose (S.state src.old) (S.state src.new)) }
        ensures count { FaultsOnlyRise (S.state src.old) (S.state src.new) }
    {
        if !self.pending().is_empty() {
            return Ok(self.first());
        }
        self.fill(src)?;
        Ok(self.first())
    }

    /// Makes the bytes up to the first newline the last line; no newline stands before `from`. It
    /// answers whether there is one.
    fn cut_line(&mut self, from: usize) -> bool
        requires within { from ≤ length self.old.pending }
        requires before { HasNoNewline (take from self.old.pending) }
        ensures found { OnTrue result (CutsLine self.old.pending self.new) }
        ensures none { OnFalse result (self.new ≡ self.old) }
        ensures plain { OnFalse result (HasNoNewline self.old.pending) }
    {
        match newline_in(&self.pending()[from..]) {
            Some(place) => {
                self.cut(from + place);
                true
            }
            None => false,
        }
    }

    /// Makes the next line the last line.
    ///
    /// # Errors
    ///
    /// `TooLong` exactly where 4,097 bytes hold no newline, `NoNewline` exactly where the input ends inside a line, `Read` only where the source's count of
    /// faults rose.
    pub fn read_line<S: Source>(&mut self, src: &mut S) -> Result<Line, LineFault>
        ensures piece { ReadsPiece (to_come self.old.pending (S.state src.old).bytes) (to_come self.new.pending (S.state src.new).bytes)
            self.new.text (FaultsRose (S.state src.old) (S.state src.new)) result }
        ensures count { FaultsOnlyRise (S.state src.old) (S.state src.new) }
    {
        if self.cut_line(0) {
            return Ok(Line::Text);
        }
        while self.pending().len() < ROOM {
            let seen = self.pending().len();
            match self.fill(src) {
                Ok(0) => return end_of_input(seen),
                Ok(_) => {}
                Err(_) => return Err(LineFault::Read),
            }
            if self.cut_line(seen) {
                return Ok(Line::Text);
            }
        }
        Err(LineFault::TooLong)
    }
}

/// What the end of the input means where this many bytes are pending.
fn end_of_input(pending: usize) -> Result<Line, LineFault>
    ensures end { pending ≡ 0 → result ≡ Ok Line.End }
    ensures broken { 0 < pending → result ≡ Err LineFault.NoNewline }
{
    if pending == 0 {
        return Ok(Line::End);
    }
    Err(LineFault::NoNewline)
}

/// Pulls more bytes behind those of the storage that are used, and answers how many.
fn pull_behind<S: Source>(src: &mut S, storage: &mut [u8], used: usize) -> Result<usize, Failed>
    requires { used < length storage.old }
    ensures within { IfOk result (λ n. used + n ≤ length storage.old) }
    ensures front { take used storage.new ≡ take used storage.old }
    ensures bytes { IfOk result (λ n. to_come (take (used + n) storage.new) (S.state src.new).bytes
        ≡ to_come (take used storage.old) (S.state src.old).bytes) }
    ensures end { IfOk result (λ n. n ≡ 0 → IsAtEnd (S.state src.old).bytes) }
    ensures failed { OnErr result (FaultsRose (S.state src.old) (S.state src.new)) }
    ensures count { FaultsOnlyRise (S.state src.old) (S.state src.new) }
{
    src.pull(&mut storage[used..])
}

/// The place of the first newline.
fn newline_in(bytes: &[u8]) -> Option<usize>
    ensures within { IfSome result (λ k. k < length bytes.now) }
    ensures found { IfSome result (λ k. slice_index bytes.now k ≡ 10) }
    ensures before { IfSome result (λ k. HasNoNewline (take k bytes.now)) }
    ensures none { IfNone result (HasNoNewline bytes.now) }
{
    for (place, byte) in bytes.iter().enumerate() {
        if *byte == b'\n' {
            return Some(place);
        }
    }
    None
}
