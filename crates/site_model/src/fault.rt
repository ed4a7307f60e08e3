//! Why an item is refused, and why no site is read.

ghost use Rattle.std.specs.Prelude.{◌≡◌, true, false};

use cable_definitions::site::SiteCode;
use thiserror::Error;

/// Why a builder refuses a call.
#[derive(Clone, Copy, Debug, PartialEq, Eq, Error)]
pub enum BuildFault {
    #[error("the item breaks the rule {0:?}")]
    Refused(SiteCode),
    #[error("out of memory")]
    Memory,
}

/// Why no site is read. The place is that of the refused item or line; `broken_line` says whether
/// that line is missing, too long or without its end.
#[derive(Clone, Copy, Debug, PartialEq, Eq, Error)]
pub enum SiteFault {
    #[error("item {place} breaks the rule {code:?}")]
    Refused {
        code: SiteCode,
        place: u64,
        broken_line: bool,
    },
    #[error("the site could not be read")]
    Read,
    #[error("out of memory")]
    Memory,
}

impl SiteFault {
    /// The refusal of an item, or of a line that is whole.
    pub fn refused(code: SiteCode, place: u64) -> SiteFault
        ensures { result ≡ SiteFault.Refused code place false }
    {
        SiteFault::Refused {
            code,
            place,
            broken_line: false,
        }
    }

    /// The refusal of a line that is missing, too long or without its end.
    pub fn broken(code: SiteCode, place: u64) -> SiteFault
        ensures { result ≡ SiteFault.Refused code place true }
    {
        SiteFault::Refused {
            code,
            place,
            broken_line: true,
        }
    }
}
