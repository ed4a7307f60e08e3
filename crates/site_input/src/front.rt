//! A site at the front of an input.

ghost use Rattle.std.specs.Prelude.{◌≡◌, ℕ, ◌≤◌, List, Bool, Some, Err, IfOk};
ghost use Rattle.cable_definitions.specs.declared.site.SiteCode.{SiteCode as Code};
ghost use Rattle.cable_definitions.specs.Site.{IsValid};
ghost use Rattle.cable_definitions.specs.Stream.{FaultsRose, FaultsOnlyRise};
ghost use Rattle.run_definitions.specs.Bytes.{IsFrontSite, IsFrontFault};

use crate::form::is_in_lines;
use crate::json::read_json_input;
use cable_text::{Lines, Source};
use site_model::{Site, SiteFault};
use site_text::read_site;
use std::alloc::Global;

/// Reads the site at the front of an input: in lines up to and with `end site` where the first byte is
/// `s`, and what follows plays no part; or else a JSON text to the end of the input.
///
/// # Errors
///
/// `Refused` with the code and the place of the first item that breaks a rule, exactly where no site
/// stands at the front; `Read` only where the count of `src` rose or stands at its last value;
/// `Memory` where there is none for the site.
pub fn read_front<S: Source>(alloc: Global, src: &mut S) -> Result<Site, SiteFault>
    ensures valid { IfOk result (λ s. IsValid s) }
    ensures site { IfOk result (λ s. (bytes : List ℕ) → (S.state src.old).bytes ≡ Some bytes → IsFrontSite bytes s) }
    ensures refused { (code : Code) (place : ℕ) (broken : Bool) (bytes : List ℕ) → result ≡ Err (SiteFault.Refused code place broken)
        → (S.state src.old).bytes ≡ Some bytes → IsFrontFault bytes code place }
    ensures read { result ≡ Err SiteFault.Read → FaultsRose (S.state src.old) (S.state src.new) }
    ensures count { FaultsOnlyRise (S.state src.old) (S.state src.new) }
{
    let Ok(mut lines) = Lines::new(alloc) else {
        return Err(SiteFault::Memory);
    };
    match is_in_lines(&mut lines, src) {
        Ok(true) => read_site(alloc, &mut lines, src),
        Ok(false) => read_json_input(alloc, lines, src),
        Err(_) => Err(SiteFault::Read),
    }
}
