//! Why the lines of a document aren't read further.

use cable_definitions::claim::Refusal;
use thiserror::Error;

/// Why the lines of a document aren't read further.
#[derive(Clone, Copy, Debug, PartialEq, Eq, Error)]
pub enum ItemFault {
    #[error("{0}")]
    Refused(Refusal),
    #[error("the source failed")]
    Read,
}
