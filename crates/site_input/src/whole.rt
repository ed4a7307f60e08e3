//! A whole input as a site.

ghost use Rattle.std.specs.Prelude.{◌≡◌, ℕ, ◌≤◌, List, Bool, Some, None, Err, IfOk, OnOk};
ghost use Rattle.cable_definitions.specs.declared.site.SiteCode.{SiteCode as Code};
ghost use Rattle.cable_definitions.specs.Site.{IsValid};
ghost use Rattle.cable_definitions.specs.Stream.{FaultsRose, FaultsOnlyRise, IsAtEnd};
ghost use Rattle.cable_text.specs.Lines.{ahead};
ghost use Rattle.cable_definitions.specs.Document.{IsSiteText};
ghost use Rattle.run_definitions.specs.Bytes.{IsSiteOf, IsPlanFault, IsWholeLineFault};

use crate::form::is_in_lines;
use crate::json::read_json_input;
use cable_text::{Line, LineFault, Lines, Source};
use site_model::{Site, SiteCode, SiteFault};
use site_text::read_site;
use std::alloc::Global;

/// Reads a whole input as a site: in lines where the first byte is `s`, with nothing behind `end site`;
/// or else a JSON text.
///
/// # Errors
///
/// `Refused` with the code and the place of the first item that breaks a rule, or of the line behind
/// `end site`, exactly where the input is no site; `Read` only where the count of `src` rose or stands
/// at its last value; `Memory` where there is none for the site.
pub fn read_whole<S: Source>(alloc: Global, src: &mut S) -> Result<Site, SiteFault>
    ensures valid { IfOk result (λ s. IsValid s) }
    ensures site { IfOk result (λ s. (bytes : List ℕ) → (S.state src.old).bytes ≡ Some bytes → IsSiteOf bytes s) }
    ensures whole { OnOk result (IsAtEnd (S.state src.new).bytes) }
    ensures refused { (code : Code) (place : ℕ) (broken : Bool) (bytes : List ℕ) → result ≡ Err (SiteFault.Refused code place broken)
        → (S.state src.old).bytes ≡ Some bytes → IsPlanFault bytes code place }
    ensures read { result ≡ Err SiteFault.Read → FaultsRose (S.state src.old) (S.state src.new) }
    ensures count { FaultsOnlyRise (S.state src.old) (S.state src.new) }
{
    let Ok(mut lines) = Lines::new(alloc) else {
        return Err(SiteFault::Memory);
    };
    match is_in_lines(&mut lines, src) {
        Ok(true) => read_whole_lines(alloc, &mut lines, src),
        Ok(false) => read_json_input(alloc, lines, src),
        Err(_) => Err(SiteFault::Read),
    }
}

/// Reads a site in lines, and finds that nothing follows it.
fn read_whole_lines<S: Source>(
    alloc: Global,
    lines: &mut Lines,
    src: &mut S,
) -> Result<Site, SiteFault>
    requires fresh { lines.old.fault ≡ None }
    requires first { lines.old.lines ≡ 0 }
    ensures valid { IfOk result (λ s. IsValid s) }
    ensures site { IfOk result (λ s. (bytes : List ℕ) → ahead lines.old (S.state src.old) ≡ Some bytes → IsSiteText bytes s) }
    ensures whole { OnOk result (IsAtEnd (S.state src.new).bytes) }
    ensures refused { (code : Code) (place : ℕ) (broken : Bool) (bytes : List ℕ) → result ≡ Err (SiteFault.Refused code place broken)
        → ahead lines.old (S.state src.old) ≡ Some bytes → IsWholeLineFault bytes code place }
    ensures read { result ≡ Err SiteFault.Read → FaultsRose (S.state src.old) (S.state src.new) }
    ensures count { FaultsOnlyRise (S.state src.old) (S.state src.new) }
{
    let site = match read_site(alloc, lines, src) {
        Ok(site) => site,
        Err(fault) => return Err(fault),
    };
    match lines.next(src) {
        Ok(Line::End) => Ok(site),
        Ok(Line::Text) => Err(SiteFault::refused(SiteCode::Form, lines.number())),
        Err(LineFault::TooLong) => Err(SiteFault::refused(SiteCode::TooLong, lines.number())),
        Err(LineFault::NoNewline) => Err(SiteFault::refused(SiteCode::Form, lines.number())),
        Err(LineFault::Read) => Err(SiteFault::Read),
    }
}
