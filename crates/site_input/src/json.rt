//! A JSON text to the end of an input.

ghost use Rattle.std.specs.Prelude.{◌≡◌, ℕ, ◌≤◌, List, Bool, Some, None, Err, IfOk, OnOk};
ghost use Rattle.cable_definitions.specs.declared.site.SiteCode.{SiteCode as Code};
ghost use Rattle.cable_definitions.specs.Site.{IsValid};
ghost use Rattle.cable_definitions.specs.Stream.{FaultsRose, FaultsOnlyRise, IsAtEnd};
ghost use Rattle.cable_text.specs.Lines.{ahead};
ghost use Rattle.run_definitions.specs.Bytes.{IsJsonSite, IsJsonFault};

use cable_text::{Lines, RestFault, Source};
use site_json::read_json;
use site_model::{Site, SiteCode, SiteFault};
use std::alloc::Global;

/// The most bytes of a JSON text.
const MOST_BYTES: usize = 8_388_608;

/// Reads a JSON text to the end of the input.
pub(crate) fn read_json_input<S: Source>(
    alloc: Global,
    lines: Lines,
    src: &mut S,
) -> Result<Site, SiteFault>
    requires { lines.fault ≡ None }
    ensures valid { IfOk result (λ s. IsValid s) }
    ensures site { IfOk result (λ s. (bytes : List ℕ) → ahead lines (S.state src.old) ≡ Some bytes → IsJsonSite bytes s) }
    ensures whole { OnOk result (IsAtEnd (S.state src.new).bytes) }
    ensures refused { (code : Code) (place : ℕ) (broken : Bool) (bytes : List ℕ) → result ≡ Err (SiteFault.Refused code place broken)
        → ahead lines (S.state src.old) ≡ Some bytes → IsJsonFault bytes code place }
    ensures read { result ≡ Err SiteFault.Read → FaultsRose (S.state src.old) (S.state src.new) }
    ensures count { FaultsOnlyRise (S.state src.old) (S.state src.new) }
{
    match lines.rest(alloc, src, MOST_BYTES) {
        Ok(bytes) => read_json(alloc, bytes.as_slice()),
        Err(RestFault::TooLong) => Err(SiteFault::refused(SiteCode::TooLong, 0)),
        Err(RestFault::Read) => Err(SiteFault::Read),
        Err(RestFault::Memory) => Err(SiteFault::Memory),
    }
}
