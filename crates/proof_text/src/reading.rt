//! The lines that are read one at a time.

ghost use Rattle.std.specs.Prelude.{◌≡◌, ◌≤◌, ◌∷◌, ◌++◌, [], ℕ, List, pos, codes, length, None, OnOk, IfOk, IsTrue, false};
ghost use Rattle.std.specs.Fmt.{decimal};
ghost use Rattle.cable_definitions.specs.Site.{Site as SiteValue};
ghost use Rattle.cable_definitions.specs.Document.{IsClaimInRange};
ghost use Rattle.cable_definitions.specs.Text.{line, claim_line, HasNoNewline, Whole};
ghost use Rattle.cable_definitions.specs.Refusal.{RawClaim, Reader, LayoutLine, ClaimLine, EndLine, AtJudged, AtAnyCables, AtCables, AtLast, Past, may_end, is_allowed, IsClaimOf, DocLine};
ghost use Rattle.cable_definitions.specs.Stream.{FaultsRose, FaultsOnlyRise, GivesFront, IsAtEnd};
ghost use Rattle.cable_text.specs.Lines.{ahead, StandsNext};
ghost use Rattle.proof_text.specs.Reading.{line_number_after, ReadsTo, ReadsDocLine, RefusedAfter, IfRefused, IfRead, IsBeforeLine, IsAt, IsAtOf, ReadsOneLine};

use crate::fault::ItemFault;
use crate::named::claim_named;
use cable_definitions::claim::{Cause, Claim, Refusal};
use cable_text::{Line, LineFault, Lines, Source};
use line_words::{claim_in, end_in, layout_in, words_of};
use site_model::Site;

/// The refusal of the last line with this cause.
pub fn refused(lines: &Lines, cause: Cause) -> ItemFault
    ensures { result ≡ ItemFault.Refused (record { line = lines.now.number; cause = cause }) }
{
    ItemFault::Refused(Refusal {
        line: lines.number(),
        cause,
    })
}

/// Reads the next line, so that it is the text of `lines`.
///
/// # Errors
///
/// `Refused` with the line's number and the cause `Line` where it is too long, unended or missing;
/// `Read` where the source failed.
pub fn next_line<S: Source>(lines: &mut Lines, src: &mut S) -> Result<(), ItemFault>
    requires { lines.old.fault ≡ None }
    ensures line { ReadsOneLine result IsBeforeLine lines.old lines.new (S.state src.old) (S.state src.new) }
    ensures found { OnOk result (StandsNext (ahead lines.old (S.state src.old)) (Whole lines.new.text) (ahead lines.new (S.state src.new))) }
    ensures plain { OnOk result (HasNoNewline lines.new.text) }
    ensures number { lines.new.number ≡ line_number_after lines.old.lines 1 }
{
    match lines.next(src) {
        Ok(Line::Text) => Ok(()),
        Ok(Line::End) => Err(refused(lines, Cause::Line)),
        Err(LineFault::TooLong) => Err(refused(lines, Cause::Line)),
        Err(LineFault::NoNewline) => Err(refused(lines, Cause::Line)),
        Err(LineFault::Read) => Err(ItemFault::Read),
    }
}

/// Reads the line `layout K` behind a site that is judged, and answers K, from 0 to 256.
///
/// # Errors
///
/// `Refused` with the line's number: `Line` where it is too long, unended or missing, `Form` where it
/// is another line, `Limit` where K is out of range. `Read` where the source failed.
pub fn read_count<S: Source>(lines: &mut Lines, src: &mut S) -> Result<u32, ItemFault>
    requires { lines.old.fault ≡ None }
    ensures line { ReadsOneLine result (IsAt AtJudged) lines.old lines.new (S.state src.old) (S.state src.new) }
    ensures reads { IfOk result (λ k. (s : SiteValue) (r : Reader) → r.phase ≡ AtJudged
        → ReadsTo s r (ahead lines.old (S.state src.old)) (ahead lines.new (S.state src.new)) (LayoutLine (pos k) ∷ []) (record r { phase = AtAnyCables k })) }
    ensures text { IfOk result (λ k. GivesFront (ahead lines.old (S.state src.old)) (ahead lines.new (S.state src.new)) (line (codes "layout" ∷ decimal k ∷ []))) }
    ensures range { IfOk result (λ k. k ≤ 256) }
{
    next_line(lines, src)?;
    match layout_in(words_of(lines.text())) {
        Ok(count) => Ok(count),
        Err(cause) => Err(refused(lines, cause)),
    }
}

/// Reads the verdict line.
///
/// # Errors
///
/// `Refused` with the line's number: `Line` where it is too long, unended or missing, `Form` where it
/// is another line, `Limit` where a number is out of range, `Layout` where it names no turbine of the
/// site. `Read` where the source failed.
pub fn read_claim<S: Source>(
    lines: &mut Lines,
    src: &mut S,
    site: &Site,
) -> Result<Claim, ItemFault>
    requires { lines.old.fault ≡ None }
    ensures line { ReadsOneLine result (IsAtOf site.now (AtCables 0)) lines.old lines.new (S.state src.old) (S.state src.new) }
    ensures reads { IfOk result (λ claim. (raw : RawClaim) × IsClaimOf site.now raw claim
        × ((r : Reader) → r.phase ≡ AtCables 0 → ReadsDocLine site.now r (ahead lines.old (S.state src.old)) (ahead lines.new (S.state src.new)) (ClaimLine raw))) }
    ensures text { IfOk result (λ claim. GivesFront (ahead lines.old (S.state src.old)) (ahead lines.new (S.state src.new)) (claim_line site.now claim)) }
    ensures range { IfOk result (λ claim. IsClaimInRange claim) }
{
    next_line(lines, src)?;
    let claim = match claim_in(words_of(lines.text())) {
        Ok(claim) => claim,
        Err(cause) => return Err(refused(lines, cause)),
    };
    match claim_named(site, claim) {
        Some(claim) => Ok(claim),
        None => Err(refused(lines, Cause::Layout)),
    }
}

/// Reads the line `end document`.
fn read_last<S: Source>(lines: &mut Lines, src: &mut S) -> Result<(), ItemFault>
    requires { lines.old.fault ≡ None }
    ensures line { ReadsOneLine result (IsAt AtLast) lines.old lines.new (S.state src.old) (S.state src.new) }
    ensures reads { OnOk result ((s : SiteValue) (r : Reader) → r.phase ≡ AtLast
        → ReadsTo s r (ahead lines.old (S.state src.old)) (ahead lines.new (S.state src.new)) (EndLine ∷ []) (record r { phase = Past })) }
    ensures text { OnOk result (GivesFront (ahead lines.old (S.state src.old)) (ahead lines.new (S.state src.new)) (line (codes "end" ∷ codes "document" ∷ []))) }
{
    next_line(lines, src)?;
    match end_in(words_of(lines.text())) {
        Ok(()) => Ok(()),
        Err(cause) => Err(refused(lines, cause)),
    }
}

/// Looks for the end of the input, where it may end.
///
/// # Errors
///
/// `Refused` with the number of the line that follows: `Line` where it is too long or unended, `Form`
/// where it is whole. `Read` where the source failed.
pub fn read_end<S: Source>(lines: &mut Lines, src: &mut S) -> Result<(), ItemFault>
    requires { lines.old.fault ≡ None }
    ensures end { OnOk result (IsAtEnd (ahead lines.old (S.state src.old))) }
    ensures same { OnOk result (ahead lines.new (S.state src.new) ≡ ahead lines.old (S.state src.old)) }
    ensures no_fault { OnOk result (lines.new.fault ≡ None) }
    ensures lines { OnOk result (lines.new.lines ≡ lines.old.lines) }
    ensures refused { IfRefused result (λ refusal. (s : SiteValue) (r : Reader) → IsTrue (may_end r.phase)
        → RefusedAfter s r (ahead lines.old (S.state src.old)) lines.old.lines refusal) }
    ensures read { IfRead result (FaultsRose (S.state src.old) (S.state src.new)) }
    ensures count { FaultsOnlyRise (S.state src.old) (S.state src.new) }
{
    match lines.next(src) {
        Ok(Line::Text) => Err(refused(lines, Cause::Form)),
        Ok(Line::End) => Ok(()),
        Err(LineFault::TooLong) => Err(refused(lines, Cause::Line)),
        Err(LineFault::NoNewline) => Err(refused(lines, Cause::Line)),
        Err(LineFault::Read) => Err(ItemFault::Read),
    }
}

/// Reads the line `end document` and finds the end of the input.
///
/// # Errors
///
/// `Refused` with the number of the first line at which a cause holds: `Line` where it is too long or
/// unended, or the line `end document` is missing; `Form` where it is another line, or a whole one
/// behind the last. `Read` where the source failed.
pub fn read_close<S: Source>(lines: &mut Lines, src: &mut S) -> Result<(), ItemFault>
    requires { lines.old.fault ≡ None }
    ensures reads { OnOk result ((s : SiteValue) (r : Reader) → r.phase ≡ AtLast
        → ReadsTo s r (ahead lines.old (S.state src.old)) (ahead lines.new (S.state src.new)) (EndLine ∷ []) (record r { phase = Past })) }
    ensures text { OnOk result (GivesFront (ahead lines.old (S.state src.old)) (ahead lines.new (S.state src.new)) (line (codes "end" ∷ codes "document" ∷ []))) }
    ensures end { OnOk result (IsAtEnd (ahead lines.new (S.state src.new))) }
    ensures no_fault { OnOk result (lines.new.fault ≡ None) }
    ensures lines { OnOk result (lines.new.lines ≡ line_number_after lines.old.lines 1) }
    ensures refused { IfRefused result (λ refusal. (s : SiteValue) (r : Reader) → r.phase ≡ AtLast
        → RefusedAfter s r (ahead lines.old (S.state src.old)) lines.old.lines refusal) }
    ensures read { IfRead result (FaultsRose (S.state src.old) (S.state src.new)) }
    ensures count { FaultsOnlyRise (S.state src.old) (S.state src.new) }
{
    read_last(lines, src)?;
    read_end(lines, src)
}
