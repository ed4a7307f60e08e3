//! Why a command didn't do its work.

ghost use Rattle.std.specs.Prelude.{◌≡◌};
ghost use Rattle.cable_run.specs.Faults.{fault_in_document};

use cable_definitions::claim::{Cause, Refusal};
use cable_text::Failed;
use document_check::DocumentFault;
use proof_text::ItemFault;
use search_core::SearchFault;
use site_model::{SiteCode, SiteFault};
use std::alloc::AllocError;
use thiserror::Error;

/// Why a command didn't do its work.
#[derive(Clone, Copy, Debug, PartialEq, Eq, Error)]
pub(crate) enum Fault {
    /// The input is no site: the first rule that an item breaks, and the item's place.
    #[error("the site is refused: {code:?} at {place}")]
    OfSite { code: SiteCode, place: u64 },
    /// The input is no document that is accepted, or no layout.
    #[error("the document is refused")]
    OfDocument(Refusal),
    /// The input failed.
    #[error("read fault")]
    Read,
    /// The output failed.
    #[error("write fault")]
    Write,
    /// Memory ran out.
    #[error("want of memory")]
    Memory,
}

/// Memory ran out.
impl From<AllocError> for Fault {
    ghost use Rattle.std.specs.Prelude.{◌≡◌};
    ghost use Rattle.cable_run.specs.declared.fault.Fault.TheVariants.{Memory};

    ghost from_gives = { λ _ fault. fault ≡ Memory };

    fn from(_error: AllocError) -> Fault {
        Fault::Memory
    }
}

/// The output failed: what fails of an input is told by the fault of what was read.
impl From<Failed> for Fault {
    ghost use Rattle.std.specs.Prelude.{◌≡◌};
    ghost use Rattle.cable_run.specs.declared.fault.Fault.TheVariants.{Write};

    ghost from_gives = { λ _ fault. fault ≡ Write };

    fn from(_error: Failed) -> Fault {
        Fault::Write
    }
}

/// The fault of a site, for a command that reads a site.
impl From<SiteFault> for Fault {
    ghost use Rattle.std.specs.Prelude.{◌≡◌};
    ghost use Rattle.cable_run.specs.Faults.{site_fault};

    ghost from_gives = { λ error fault. fault ≡ site_fault error };

    fn from(error: SiteFault) -> Fault {
        match error {
            SiteFault::Refused { code, place, .. } => Fault::OfSite { code, place },
            SiteFault::Read => Fault::Read,
            SiteFault::Memory => Fault::Memory,
        }
    }
}

/// The fault of a line behind a site.
impl From<ItemFault> for Fault {
    ghost use Rattle.std.specs.Prelude.{◌≡◌};
    ghost use Rattle.cable_run.specs.Faults.{line_fault};

    ghost from_gives = { λ error fault. fault ≡ line_fault error };

    fn from(error: ItemFault) -> Fault {
        match error {
            ItemFault::Refused(refusal) => Fault::OfDocument(refusal),
            ItemFault::Read => Fault::Read,
        }
    }
}

/// The fault of a document behind its site.
impl From<DocumentFault> for Fault {
    ghost use Rattle.std.specs.Prelude.{◌≡◌};
    ghost use Rattle.cable_run.specs.Faults.{document_fault};

    ghost from_gives = { λ error fault. fault ≡ document_fault error };

    fn from(error: DocumentFault) -> Fault {
        match error {
            DocumentFault::Refused(refusal) => Fault::OfDocument(refusal),
            DocumentFault::Read => Fault::Read,
            DocumentFault::Memory => Fault::Memory,
        }
    }
}

/// The fault of a search.
impl From<SearchFault> for Fault {
    ghost use Rattle.std.specs.Prelude.{◌≡◌};
    ghost use Rattle.cable_run.specs.Faults.{search_fault};

    ghost from_gives = { λ error fault. fault ≡ search_fault error };

    fn from(error: SearchFault) -> Fault {
        match error {
            SearchFault::Write => Fault::Write,
            SearchFault::Memory => Fault::Memory,
        }
    }
}

/// What the fault of a site is for a command that reads a document: a line that is missing, too long or
/// unended, or a site that is refused.
pub(crate) fn in_document(fault: SiteFault) -> Fault
    ensures { result ≡ fault_in_document fault }
{
    match fault {
        SiteFault::Refused {
            place,
            broken_line,
            ..
        } => {
            let cause = if broken_line {
                Cause::Line
            } else {
                Cause::Site
            };
            Fault::OfDocument(Refusal { line: place, cause })
        }
        SiteFault::Read => Fault::Read,
        SiteFault::Memory => Fault::Memory,
    }
}
