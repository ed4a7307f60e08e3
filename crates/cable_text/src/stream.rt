//! Sources and sinks of bytes.

ghost use Rattle.std.specs.Prelude.{◌≡◌, ℕ, ◌<◌, ◌≤◌, length, take, IfOk, OnErr};
ghost use Rattle.cable_definitions.specs.Stream.{StreamState, FaultsRose, FaultsOnlyRise, GivesFront, IsAtEnd, StaysSilent, Writes};

use thiserror::Error;

/// A source or a sink failed, and its count of faults rose or stands at its last value.
#[derive(Clone, Copy, Debug, PartialEq, Eq, Error)]
#[error("the stream failed")]
pub struct Failed;

/// A source of bytes.
pub trait Source {
    // The bytes that are left, where the source tells them, and how many pulls failed, up to the last
    // value of 64 bits.
    ghost state: { Self → StreamState };

    /// Puts the next bytes at the front of `buf` and answers how many. It is 0 at the end of the
    /// input alone.
    ///
    /// # Errors
    ///
    /// `Failed` only where the count of faults rose or stands at its last value.
    fn pull(&mut self, buf: &mut [u8]) -> Result<usize, Failed>
        requires { 0 < length buf.old }
        ensures bound { IfOk result (λ n. n ≤ length buf.old) }
        ensures bytes { IfOk result (λ n. GivesFront (state self.old).bytes (state self.new).bytes (take n buf.new)) }
        ensures end { IfOk result (λ n. n ≡ 0 → IsAtEnd (state self.old).bytes) }
        ensures silent { StaysSilent (state self.old).bytes (state self.new).bytes }
        ensures failed { OnErr result (FaultsRose (state self.old) (state self.new)) }
        ensures count { FaultsOnlyRise (state self.old) (state self.new) };
}

/// A sink of bytes.
pub trait Sink {
    // The bytes taken so far, where the sink tells them, and how many pushes failed, up to the last
    // value of 64 bits.
    ghost state: { Self → StreamState };

    /// Appends all of `bytes`.
    ///
    /// # Errors
    ///
    /// `Failed` only where the count of faults rose or stands at its last value. Some first part of
    /// `bytes` was appended then.
    fn push(&mut self, bytes: &[u8]) -> Result<(), Failed>
        ensures writes { Writes result (state self.old) (state self.new) bytes.now };
}
