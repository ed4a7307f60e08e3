//! Whole sites read from lines.

ghost use Rattle.std.specs.Prelude.{◌≡◌, ◌≢◌, ℕ, List, Bool, true, false, ◌+◌, ◌^◌, ◌<◌, ◌≤◌, Ok, Err, None, Some, IfOk, IfErr, OnOk};
ghost use Rattle.cable_definitions.specs.declared.site.SiteCode.{SiteCode as AnyCode};
ghost use Rattle.cable_definitions.specs.Site.{IsValid, version_number, latest_version};
ghost use Rattle.cable_definitions.specs.Text.{HasNoNewline, site_lines, line_count};
ghost use Rattle.cable_definitions.specs.Items.{Draft, TheEnd, IsFirstCode, IsGood, IsLineFault, empty_draft};
ghost use Rattle.cable_definitions.specs.Stream.{GivesFront, FaultsRose, FaultsOnlyRise};
ghost use Rattle.cable_text.specs.Lines.{ahead, next_number};
ghost use Rattle.site_text.specs.Adding.{TextAdds, TextBreaks};
ghost use Rattle.site_text.specs.Reading.{lines_after, most_lines, versioned, fault_of_line, begun, ReadsText, ReadsItemLine, ReadsItem, Faults};

use crate::add::{Progress, add_text};
use crate::item::{Item, item_of};
use cable_text::{Line, LineFault, Lines, Source};
use site_model::{BuildFault, Mode, Site, SiteBuilder, SiteCode, SiteFault, Version};
use std::alloc::Global;

/// Reads the lines of a site, up to and with the line `end site`, and no byte more, under the
/// condition that `lines` keeps no fault. A site has at most 34,100 lines.
///
/// # Errors
///
/// `Refused` with the first line that breaks a rule, numbered on from the lines that `lines` has
/// read before, and the first code that it breaks; `Read` only where the count of `src` rose or
/// stands at its last value; `Memory` where there is none for the site. What `lines` and `src` have
/// left then is not told.
pub fn read_site<S: Source>(
    alloc: Global,
    lines: &mut Lines,
    src: &mut S,
) -> Result<Site, SiteFault>
    requires { lines.old.fault ≡ None }
    ensures valid { IfOk result (λ s. IsValid s) }
    ensures text { IfOk result (λ s. GivesFront (ahead lines.old (S.state src.old)) (ahead lines.new (S.state src.new)) (site_lines s)) }
    ensures no_fault { OnOk result (lines.new.fault ≡ None) }
    ensures lines { IfOk result (λ s. lines.new.lines ≡ lines_after lines.old.lines (line_count (site_lines s))) }
    ensures few { IfOk result (λ s. line_count (site_lines s) ≤ most_lines) }
    ensures refused { (bytes : List ℕ) (code : AnyCode) (place : ℕ) (broken : Bool) → (ahead lines.old (S.state src.old)) ≡ Some bytes → lines.old.lines + most_lines < 2 ^ 64
        → result ≡ Err (SiteFault.Refused code place broken) → IsLineFault bytes (lines.old.lines + 1) code place broken }
    ensures read { result ≡ Err SiteFault.Read → FaultsRose (S.state src.old) (S.state src.new) }
    ensures count { FaultsOnlyRise (S.state src.old) (S.state src.new) }
{
    let version = read_version(lines, src)?;
    let mode = read_mode(version, lines, src)?;
    let mut builder = begin(alloc, version, mode)?;
    'items: loop {
        match read_item(&mut builder, version, lines, src)? {
            Progress::Added => {}
            Progress::Ended => return finish(builder, lines.number()),
        }
    }
}

/// Reads the next line, so that it is the text of `lines`.
fn next_text<S: Source>(lines: &mut Lines, src: &mut S) -> Result<(), SiteFault>
    requires { lines.old.fault ≡ None }
    ensures reads { OnOk result (ReadsText (ahead lines.old (S.state src.old)) (ahead lines.new (S.state src.new)) lines.old lines.new) }
    ensures refused { (code : AnyCode) (place : ℕ) (broken : Bool) → result ≡ Err (SiteFault.Refused code place broken)
        → (d : Draft) → Faults d (ahead lines.old (S.state src.old)) lines.old.lines code place broken }
    ensures read { result ≡ Err SiteFault.Read → FaultsRose (S.state src.old) (S.state src.new) }
    ensures count { FaultsOnlyRise (S.state src.old) (S.state src.new) }
{
    match lines.next(src) {
        Ok(Line::Text) => Ok(()),
        Ok(Line::End) => Err(SiteFault::broken(SiteCode::Form, lines.number())),
        Err(LineFault::TooLong) => Err(SiteFault::broken(SiteCode::TooLong, lines.number())),
        Err(LineFault::NoNewline) => Err(SiteFault::broken(SiteCode::Form, lines.number())),
        Err(LineFault::Read) => Err(SiteFault::Read),
    }
}

/// The fault of a whole line that the builder refuses.
fn fault_of(fault: BuildFault, place: u64) -> SiteFault
    ensures { result ≡ fault_of_line fault place }
{
    match fault {
        BuildFault::Refused(code) => SiteFault::refused(code, place),
        BuildFault::Memory => SiteFault::Memory,
    }
}

/// Reads the line of the version.
fn read_version<S: Source>(lines: &mut Lines, src: &mut S) -> Result<Version, SiteFault>
    requires { lines.old.fault ≡ None }
    ensures version { IfOk result (λ version. version_number version ≤ latest_version) }
    ensures reads { IfOk result (λ version. ReadsItem empty_draft (versioned version) (ahead lines.old (S.state src.old)) (ahead lines.new (S.state src.new)) lines.old.lines lines.new.lines) }
    ensures no_fault { OnOk result (lines.new.fault ≡ None) }
    ensures refused { (code : AnyCode) (place : ℕ) (broken : Bool) → result ≡ Err (SiteFault.Refused code place broken) → Faults empty_draft (ahead lines.old (S.state src.old)) lines.old.lines code place broken }
    ensures read { result ≡ Err SiteFault.Read → FaultsRose (S.state src.old) (S.state src.new) }
    ensures count { FaultsOnlyRise (S.state src.old) (S.state src.new) }
{
    next_text(lines, src)?;
    match version_of(lines.text()) {
        Ok(version) => Ok(version),
        Err(code) => Err(SiteFault::refused(code, lines.number())),
    }
}

/// The version that a text says, or the first code that it breaks as the first line of a site.
fn version_of(text: &[u8]) -> Result<Version, SiteCode>
    requires { HasNoNewline text.now }
    ensures version { IfOk result (λ version. version_number version ≤ latest_version) }
    ensures good { IfOk result (λ version. TextAdds empty_draft text.now (versioned version)) }
    ensures code { IfErr result (λ code. TextBreaks empty_draft text.now code) }
{
    match item_of(Version::One, text) {
        Item::Version(Some(number)) => {
            if number == 1 {
                Ok(Version::One)
            } else {
                Err(SiteCode::Range)
            }
        }
        Item::Version(None) => Err(SiteCode::Shape),
        _ => Err(SiteCode::Form),
    }
}

/// Reads the line of the mode.
fn read_mode<S: Source>(version: Version, lines: &mut Lines, src: &mut S) -> Result<Mode, SiteFault>
    requires { lines.old.fault ≡ None }
    ensures reads { IfOk result (λ mode. ReadsItem (versioned version) (begun version mode) (ahead lines.old (S.state src.old)) (ahead lines.new (S.state src.new)) lines.old.lines lines.new.lines) }
    ensures no_fault { OnOk result (lines.new.fault ≡ None) }
    ensures refused { (code : AnyCode) (place : ℕ) (broken : Bool) → result ≡ Err (SiteFault.Refused code place broken) → Faults (versioned version) (ahead lines.old (S.state src.old)) lines.old.lines code place broken }
    ensures read { result ≡ Err SiteFault.Read → FaultsRose (S.state src.old) (S.state src.new) }
    ensures count { FaultsOnlyRise (S.state src.old) (S.state src.new) }
{
    next_text(lines, src)?;
    match mode_of(version, lines.text()) {
        Ok(mode) => Ok(mode),
        Err(code) => Err(SiteFault::refused(code, lines.number())),
    }
}

/// The mode that a text says, or the first code that it breaks as the line behind the version.
fn mode_of(version: Version, text: &[u8]) -> Result<Mode, SiteCode>
    requires { HasNoNewline text.now }
    ensures good { IfOk result (λ mode. TextAdds (versioned version) text.now (begun version mode)) }
    ensures code { IfErr result (λ code. TextBreaks (versioned version) text.now code) }
{
    match item_of(version, text) {
        Item::Mode(Some(mode)) => Ok(mode),
        Item::Mode(None) => Err(SiteCode::Shape),
        _ => Err(SiteCode::Form),
    }
}

/// The builder of a site that has nothing but its version and its mode.
fn begin(alloc: Global, version: Version, mode: Mode) -> Result<SiteBuilder, SiteFault>
    requires { version_number version ≤ latest_version }
    ensures builder { IfOk result (λ builder. builder ≡ begun version mode) }
    ensures memory { IfErr result (λ fault. fault ≡ SiteFault.Memory) }
{
    match SiteBuilder::new(alloc, version, mode) {
        Ok(builder) => Ok(builder),
        Err(_) => Err(SiteFault::Memory),
    }
}

/// Reads a line behind the mode and gives the builder what it says.
fn read_item<S: Source>(
    builder: &mut SiteBuilder,
    version: Version,
    lines: &mut Lines,
    src: &mut S,
) -> Result<Progress, SiteFault>
    requires no_fault { lines.old.fault ≡ None }
    requires version { version ≡ builder.old.site.version }
    requires begun { 2 ≤ builder.old.stage }
    ensures added { result ≡ Ok Progress.Added → ReadsItem builder.old builder.new (ahead lines.old (S.state src.old)) (ahead lines.new (S.state src.new)) lines.old.lines lines.new.lines }
    ensures ended { result ≡ Ok Progress.Ended → ReadsItemLine version TheEnd (ahead lines.old (S.state src.old)) (ahead lines.new (S.state src.new)) lines.old.lines lines.new.lines }
    ensures unchanged { result ≡ Ok Progress.Ended → builder.new ≡ builder.old }
    ensures number { result ≡ Ok Progress.Ended → lines.new.number ≡ next_number lines.old.lines }
    ensures no_fault { OnOk result (lines.new.fault ≡ None) }
    ensures refused { (code : AnyCode) (place : ℕ) (broken : Bool) → result ≡ Err (SiteFault.Refused code place broken) → Faults builder.old (ahead lines.old (S.state src.old)) lines.old.lines code place broken }
    ensures read { result ≡ Err SiteFault.Read → FaultsRose (S.state src.old) (S.state src.new) }
    ensures count { FaultsOnlyRise (S.state src.old) (S.state src.new) }
{
    next_text(lines, src)?;
    match add_text(builder, version, lines.text()) {
        Ok(progress) => Ok(progress),
        Err(fault) => Err(fault_of(fault, lines.number())),
    }
}

/// The site, where its last line, of this number, may stand.
fn finish(builder: SiteBuilder, place: u64) -> Result<Site, SiteFault>
    ensures good { OnOk result (IsGood builder TheEnd) }
    ensures site { IfOk result (λ site. site ≡ builder.site) }
    ensures refused { (code : AnyCode) (number : ℕ) (broken : Bool) → result ≡ Err (SiteFault.Refused code number broken) → IsFirstCode builder TheEnd code × (number ≡ place) × (broken ≡ false) }
    ensures read { result ≢ Err SiteFault.Read }
{
    match builder.build() {
        Ok(site) => Ok(site),
        Err(fault) => Err(fault_of(fault, place)),
    }
}
