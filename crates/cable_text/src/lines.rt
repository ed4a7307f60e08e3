//! The lines of a source, numbered, and the rest of it.

ghost use Rattle.std.specs.Prelude.{◌≡◌, ℕ, ◌≤◌, [], length, Some, None, IfOk, IfSome, IfNone, IfErr, OnOk, ◌<◌};
ghost use Rattle.cable_definitions.specs.Stream.{FaultsRose, FaultsOnlyRise, IsAtEnd};
ghost use Rattle.cable_text.specs.Lines.{ahead, ReadsLine, PeeksByte, IsRest, IsLonger};

use crate::buffer::Buffer;
use crate::fault::{Line, LineFault, RestFault};
use crate::stream::Source;
use std::alloc::{AllocError, Global};
use std::marker::Model;

/// A reader of the lines of a source. Contracts see the text of the last line, the bytes that were
/// pulled and belong to no line yet, how many lines were read, the number of the last line, and the
/// fault that is kept.
#[derive(Drop)]
pub struct Lines {
    buffer: Buffer,
    lines: u64,
    number: u64,
    fault: Option<LineFault>,
}

impl Model for Lines {
    ghost use Rattle.cable_text.specs.Lines.{LinesState};

    ghost Value = { LinesState };

    ghost view = { λ s. record { text = s.buffer.text; pending = s.buffer.pending; lines = s.lines; number = s.number; fault = s.fault } };
}

impl Lines {
    /// A reader that has read no line and keeps no fault.
    ///
    /// # Errors
    ///
    /// `AllocError` where there is no memory for 4,097 bytes.
    pub fn new(alloc: Global) -> Result<Lines, AllocError>
        ensures { IfOk result (λ s. s ≡ record { text = []; pending = []; lines = 0; number = 0; fault = None }) }
    {
        Ok(Lines {
            buffer: Buffer::new(alloc)?,
            lines: 0,
            number: 0,
            fault: None,
        })
    }

    /// The last line, without its newline.
    pub fn text(&self) -> &[u8]
        ensures { result.now ≡ self.now.text }
    {
        self.buffer.text()
    }

    /// The number of the last line, from 1; after the end of the input or a fault that of the line
    /// that is missing or broken. It stays at 2^64 - 1 once it is there.
    pub fn number(&self) -> u64
        ensures { result ≡ self.now.number }
    {
        self.number
    }

    /// The next byte, which stays where it is; None exactly at the end of the input. The text of the
    /// last line may be lost.
    ///
    /// # Errors
    ///
    /// The fault that is kept, and then nothing changes; or `Read` where the source failed, which is
    /// kept.
    pub fn peek<S: Source>(&mut self, src: &mut S) -> Result<Option<u8>, LineFault>
        ensures kept { IfSome self.old.fault (λ fault. (result ≡ Err fault) × (self.new ≡ self.old) × (src.new ≡ src.old)) }
        ensures peeks { IfNone self.old.fault (PeeksByte self.old self.new (S.state src.old) (S.state src.new) result) }
        ensures count { FaultsOnlyRise (S.state src.old) (S.state src.new) }
    {
        if let Some(fault) = self.fault {
            return Err(fault);
        }
        match self.buffer.peek(src) {
            Ok(Some(byte)) => Ok(Some(byte)),
            Ok(None) => Ok(None),
            Err(_) => {
                self.number = self.lines.saturating_add(1);
                self.fault = Some(LineFault::Read);
                Err(LineFault::Read)
            }
        }
    }

    /// Reads the next line, of at most 4,096 bytes and a newline.
    ///
    /// # Errors
    ///
    /// The fault that is kept, and then nothing changes. Else `TooLong` where the next 4,097 bytes
    /// hold no newline, `NoNewline` where the input ends inside a line, `Read` where the source
    /// failed. The fault is kept.
    pub fn next<S: Source>(&mut self, src: &mut S) -> Result<Line, LineFault>
        ensures kept { IfSome self.old.fault (λ fault. (result ≡ Err fault) × (self.new ≡ self.old) × (src.new ≡ src.old)) }
        ensures reads { IfNone self.old.fault (ReadsLine self.old self.new (S.state src.old) (S.state src.new) result) }
        ensures count { FaultsOnlyRise (S.state src.old) (S.state src.new) }
    {
        if let Some(fault) = self.fault {
            return Err(fault);
        }
        self.number = self.lines.saturating_add(1);
        match self.buffer.read_line(src) {
            Ok(Line::Text) => {
                self.lines = self.number;
                Ok(Line::Text)
            }
            Ok(Line::End) => Ok(Line::End),
            Err(fault) => {
                self.fault = Some(fault);
                Err(fault)
            }
        }
    }

    /// Reads all bytes to the end of the input, at most `most`, under the condition that no fault is
    /// kept.
    ///
    /// # Errors
    ///
    /// `TooLong` exactly where more bytes were left, `Read` where the source failed, `Memory` where
    /// there is no memory for the bytes.
    pub fn rest<S: Source>(
        self,
        alloc: Global,
        src: &mut S,
        most: usize,
    ) -> Result<Vec<u8>, RestFault>
        requires { self.fault ≡ None }
        ensures bytes { IfOk result (λ v. IsRest (ahead self (S.state src.old)) v.items) }
        ensures within { IfOk result (λ v. length v.items ≤ most) }
        ensures end { OnOk result (IsAtEnd (S.state src.new).bytes) }
        ensures long { IfErr result (λ e. e ≡ RestFault.TooLong → IsLonger (ahead self (S.state src.old)) most) }
        ensures failed { IfErr result (λ e. e ≡ RestFault.Read → FaultsRose (S.state src.old) (S.state src.new)) }
        ensures count { FaultsOnlyRise (S.state src.old) (S.state src.new) }
    {
        let mut buffer = self.buffer;
        let mut bytes = Vec::new(alloc);
        'pieces: loop {
            if buffer.pending().len() > most - bytes.len() {
                return Err(RestFault::TooLong);
            }
            if bytes.extend_from_slice(buffer.pending()).is_err() {
                return Err(RestFault::Memory);
            }
            buffer.clear();
            match buffer.fill(src) {
                Ok(0) => return Ok(bytes),
                Ok(_) => {}
                Err(_) => return Err(RestFault::Read),
            }
        }
    }
}
