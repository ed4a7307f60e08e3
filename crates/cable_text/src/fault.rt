//! What a call for a line or for the rest finds, and why it finds none.

use thiserror::Error;

/// What a call for the next line found: its text, or the end of the input.
#[derive(Clone, Copy, Debug, PartialEq, Eq)]
pub enum Line {
    Text,
    End,
}

/// Why a line isn't read.
#[derive(Clone, Copy, Debug, PartialEq, Eq, Error)]
pub enum LineFault {
    #[error("4,097 bytes hold no newline")]
    TooLong,
    #[error("the input ends inside a line")]
    NoNewline,
    #[error("the source failed")]
    Read,
}

/// Why the rest of the input isn't read.
#[derive(Clone, Copy, Debug, PartialEq, Eq, Error)]
pub enum RestFault {
    #[error("more bytes are left than may be read")]
    TooLong,
    #[error("the source failed")]
    Read,
    #[error("out of memory")]
    Memory,
}
