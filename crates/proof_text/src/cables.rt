//! The cable lines of a document.

ghost use Rattle.std.specs.Prelude.{◌≡◌, ◌<◌, ◌≤◌, ◌↔◌, ◌∷◌, ◌++◌, [], ℕ, ℤ, List, pos, suc, length, map, All, AllPairs, None, OnOk, IfOk, IfErr, IfSome, IfNone, IsTrue};
ghost use Rattle.std.specs.List.{concat};
ghost use Rattle.cable_definitions.specs.declared.cable.Cable.{Cable as AnyCable};
ghost use Rattle.cable_definitions.specs.Text.{cable_line};
ghost use Rattle.cable_definitions.specs.Site.{IsValid};
ghost use Rattle.cable_definitions.specs.Refusal.{Reader, DocLine};
ghost use Rattle.cable_definitions.specs.Stream.{FaultsRose, FaultsOnlyRise, GivesFront};
ghost use Rattle.cable_text.specs.Lines.{ahead};
ghost use Rattle.line_words.specs.Words.{held};
ghost use Rattle.line_words.specs.Numbers.{Is};
ghost use Rattle.line_words.specs.declared.number.Number.TheVariants.{Small};
ghost use Rattle.proof_text.specs.Cables.{HasNumbersOf, IsCableNamed, IsAhead, AwaitsCable, IsCableLine, IsNoCable, ReadsCables, cables_left};
ghost use Rattle.proof_text.specs.Reading.{line_number_after, ReadsTo, RefusedAfter, IfRefused, IfRead, ReadsOneLine};

use crate::fault::ItemFault;
use crate::reading::{next_line, refused};
use cable_definitions::cable::Cable;
use cable_definitions::claim::Cause;
use cable_text::{Lines, Source};
use layout_meaning::Layout;
use line_words::{Number, Words, cable_said, words_of};
use site_model::Site;

/// The number of a type of the site.
fn grade_in(site: &Site, number: Number) -> Option<u32>
    ensures some { IfSome result (λ g. (number ≡ Small (pos g)) × (g < length site.now.types)) }
    ensures none { IfNone result ((z : ℤ) → Is number z → (g : ℕ) → z ≡ pos g → ¬ (g < length site.now.types)) }
{
    let count = site.types().len() as i128;
    match number {
        Number::Small(value) => {
            if value < 0 {
                return None;
            }
            if value >= count {
                return None;
            }
            Some(value as u32)
        }
        Number::Other => None,
    }
}

/// The cable between the points of these names, with this type; none where there is none.
fn cable_named(site: &Site, from: &[u8], to: &[u8], grade: Number) -> Option<Cable>
    ensures some { IfSome result (λ c. (z : ℤ) → Is grade z → IsCableNamed site.now from.now to.now z c) }
    ensures none { IfNone result ((z : ℤ) → Is grade z → (c : AnyCable) → ¬ (IsCableNamed site.now from.now to.now z c)) }
    ensures valid { IsValid site.now }
{
    let Some(from) = site.number_of(from) else {
        return None;
    };
    let Some(to) = site.number_of(to) else {
        return None;
    };
    let Some(grade) = grade_in(site, grade) else {
        return None;
    };
    Some(Cable { from, to, grade })
}

/// Whether a cable may stand behind these: where they stand in order of start, it starts after all of
/// them.
fn is_ahead(cables: &[Cable], ordered: bool, cable: Cable) -> bool
    ensures { IsTrue result ↔ IsAhead ordered cables.now cable }
{
    if !ordered {
        return true;
    }
    starts_last(cables, cable.from)
}

/// Whether each cable starts before this point.
fn starts_last(cables: &[Cable], from: u32) -> bool
    ensures { IsTrue result ↔ All (λ d. d.from < from) cables.now }
{
    cables.iter().all(|cable| cable.from < from)
}

/// The cable of a line behind these cables; `Form` where the line is another, `Layout` where it names
/// no cable of the site or one that may not stand there.
fn cable_in(site: &Site, cables: &[Cable], ordered: bool, words: Words) -> Result<Cable, Cause>
    ensures good { IfOk result (λ c. IsCableLine site.now ordered cables.now (held words.entry) c) }
    ensures valid { OnOk result (IsValid site.now) }
    ensures bad { IfErr result (λ cause. IsNoCable site.now ordered cables.now (held words.entry) cause) }
{
    let Some((from, to, grade)) = cable_said(words) else {
        return Err(Cause::Form);
    };
    let Some(cable) = cable_named(site, from, to, grade) else {
        return Err(Cause::Layout);
    };
    if is_ahead(cables, ordered, cable) {
        return Ok(cable);
    }
    Err(Cause::Layout)
}

/// Reads a cable line behind these cables.
fn read_cable<S: Source>(
    lines: &mut Lines,
    src: &mut S,
    site: &Site,
    cables: &[Cable],
    ordered: bool,
) -> Result<Cable, ItemFault>
    requires { lines.old.fault ≡ None }
    ensures line { ReadsOneLine result (AwaitsCable site.now ordered cables.now) lines.old lines.new (S.state src.old) (S.state src.new) }
    ensures reads { IfOk result (λ c. (l : DocLine) × ((r : Reader) (k : ℕ) → r.phase ≡ cables_left ordered (suc k) → r.cables ≡ cables.now
        → ReadsTo site.now r (ahead lines.old (S.state src.old)) (ahead lines.new (S.state src.new)) (l ∷ []) (record r { phase = cables_left ordered k; cables = cables.now ++ c ∷ [] }))) }
    ensures text { IfOk result (λ c. GivesFront (ahead lines.old (S.state src.old)) (ahead lines.new (S.state src.new)) (cable_line site.now c)) }
    ensures listed { IfOk result (λ c. HasNumbersOf site.now c) }
    ensures in_order { IfOk result (λ c. IsAhead ordered cables.now c) }
{
    next_line(lines, src)?;
    match cable_in(site, cables, ordered, words_of(lines.text())) {
        Ok(cable) => Ok(cable),
        Err(cause) => Err(refused(lines, cause)),
    }
}

/// Reads `count` cable lines into a layout that has no cable; where they are ordered, each cable
/// starts after all before it.
///
/// # Errors
///
/// `Refused` with the number of the first line at which a cause holds: `Line` where it is too long,
/// unended or missing, `Form` where it is another line, `Layout` where it names no point or type of
/// the site or stands out of order. `Read` where the source failed.
pub fn read_layout<S: Source>(
    lines: &mut Lines,
    src: &mut S,
    site: &Site,
    count: u32,
    ordered: bool,
    into: &mut Layout,
) -> Result<(), ItemFault>
    requires no_fault { lines.old.fault ≡ None }
    requires empty { into.old ≡ [] }
    requires most { count ≤ 256 }
    ensures reads { OnOk result (ReadsCables site.now ordered count 0 (ahead lines.old (S.state src.old)) (ahead lines.new (S.state src.new)) into.new) }
    ensures text { OnOk result (GivesFront (ahead lines.old (S.state src.old)) (ahead lines.new (S.state src.new)) (concat (map (cable_line site.now) into.new))) }
    ensures size { OnOk result (length into.new ≡ count) }
    ensures listed { OnOk result (All (HasNumbersOf site.now) into.new) }
    ensures in_order { OnOk result (IsTrue ordered → AllPairs (λ c d. c.from < d.from) into.new) }
    ensures no_fault { OnOk result (lines.new.fault ≡ None) }
    ensures lines { OnOk result (1 ≤ count → lines.new.lines ≡ line_number_after lines.old.lines count) }
    ensures no_lines { OnOk result (count ≡ 0 → lines.new.lines ≡ lines.old.lines) }
    ensures refused { IfRefused result (λ refusal. (r : Reader) → r.phase ≡ cables_left ordered count → r.cables ≡ []
        → RefusedAfter site.now r (ahead lines.old (S.state src.old)) lines.old.lines refusal) }
    ensures read { IfRead result (FaultsRose (S.state src.old) (S.state src.new)) }
    ensures count { FaultsOnlyRise (S.state src.old) (S.state src.new) }
{
    'cables: for _done in 0..count {
        let cable = read_cable(lines, src, site, into.cables(), ordered);
        match cable {
            Ok(cable) => into.push(cable).unwrap(),
            Err(fault) => return Err(fault),
        }
    }
    Ok(())
}
