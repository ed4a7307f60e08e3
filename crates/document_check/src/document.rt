//! A document behind its site, read and checked item by item up to its claim.

ghost use Rattle.std.specs.Prelude.{◌≡◌, ℕ, ◌+◌, ◌<◌, ◌≤◌, ◌^◌, List, [], ◌++◌, Option, None, Some, Err, IfOk, OnOk};
ghost use Rattle.cable_definitions.specs.declared.cable.Arc.{Arc as AnArc};
ghost use Rattle.cable_definitions.specs.Arcs.{AreArcs};
ghost use Rattle.cable_definitions.specs.Command.{IsBudget};
ghost use Rattle.cable_definitions.specs.Document.{IsClaimInRange};
ghost use Rattle.cable_definitions.specs.Refusal.{AtBudget, AtItem, AtCables, AtLast, IsRefusedAfter};
ghost use Rattle.cable_definitions.specs.Text.{claim_line};
ghost use Rattle.cable_definitions.specs.Tree.{Item, Agrees};
ghost use Rattle.cable_definitions.specs.declared.claim.Refusal.{Refusal as AnyRefusal};
ghost use Rattle.cable_definitions.specs.Stream.{FaultsRose, FaultsOnlyRise, IsAtEnd};
ghost use Rattle.cable_text.specs.Lines.{ahead};
ghost use Rattle.document_check.specs.Behind.{IsAcceptedBehind};
ghost use Rattle.document_check.specs.Feeding.{FeedsNext, FeedsToLayout, fault_from};
ghost use Rattle.document_check.specs.Progress.{HasRead, IsRefusedFrom, ReadsOn, RefusesOn, IfRefused, IfRead, state, items_text, text_to_layout};

use cable_definitions::claim::{Claim, Refusal};
use cable_text::{Lines, Source};
use candidate_cables::Arcs;
use layout_meaning::Layout;
use proof_checker::Checker;
use proof_text::{ItemFault, ItemReader, Next, read_claim, read_close, read_layout};
use site_model::Site;
use std::alloc::Global;
use thiserror::Error;

/// What an accepted document says: its layout in ascending order of start, and its claim.
#[derive(Drop)]
pub struct Accepted {
    pub layout: Layout,
    pub claim: Claim,
}

/// Why a document wasn't accepted.
#[derive(Clone, Copy, Debug, PartialEq, Eq, Error)]
pub enum DocumentFault {
    #[error("{0}")]
    Refused(Refusal),
    #[error("the document could not be read")]
    Read,
    #[error("out of memory")]
    Memory,
}

/// The fault of a document whose lines aren't read further.
fn reading_fault(fault: ItemFault) -> DocumentFault
    ensures { result ≡ fault_from fault }
{
    match fault {
        ItemFault::Refused(refusal) => DocumentFault::Refused(refusal),
        ItemFault::Read => DocumentFault::Read,
    }
}

/// Reads the line `budget N`, and makes the checker of the items behind it, with the site's arcs.
fn begin_document<'a, S: Source>(
    alloc: Global,
    site: &'a Site,
    arcs: Arcs,
    reader: &mut ItemReader,
    lines: &mut Lines,
    src: &mut S,
) -> Result<Checker<'a>, DocumentFault>
    requires own_arcs { AreArcs site.now arcs }
    requires readable { reader.old.fault ≡ None }
    requires no_fault { lines.old.fault ≡ None }
    ensures site { IfOk result (λ checker. checker.site ≡ site.now) }
    ensures arcs { IfOk result (λ checker. AreArcs site.now checker.arcs) }
    ensures budget { IfOk result (λ checker. IsBudget checker.budget) }
    ensures open { IfOk result (λ checker. checker.refused ≡ None) }
    ensures reads { IfOk result (λ checker. HasRead site.now checker.arcs (ahead lines.old (S.state src.old)) (ahead lines.new (S.state src.new))
        lines.old.lines lines.new.lines (state AtItem checker.budget checker.state []) (items_text checker.budget)) }
    ensures readable { OnOk result (reader.new.fault ≡ None) }
    ensures no_fault { OnOk result (lines.new.fault ≡ None) }
    ensures refused { IfRefused result (λ refusal. (others : List AnArc) → IsRefusedFrom site.now others (ahead lines.old (S.state src.old)) lines.old.lines refusal) }
    ensures read { IfRead result (FaultsRose (S.state src.old) (S.state src.new)) }
    ensures count { FaultsOnlyRise (S.state src.old) (S.state src.new) }
{
    let budget = match reader.budget(lines, src) {
        Ok(budget) => budget,
        Err(fault) => return Err(reading_fault(fault)),
    };
    match Checker::with_arcs(alloc, site, arcs, budget) {
        Ok(checker) => Ok(checker),
        Err(_) => Err(DocumentFault::Memory),
    }
}

/// Reads the next item and feeds it, or reads the line `layout K` and answers K.
fn feed_item<S: Source>(
    checker: &mut Checker<'_>,
    reader: &mut ItemReader,
    lines: &mut Lines,
    src: &mut S,
) -> Result<Option<u32>, DocumentFault>
    requires open { checker.old.refused ≡ None }
    requires readable { reader.old.fault ≡ None }
    requires no_fault { lines.old.fault ≡ None }
    ensures fed { IfOk result (FeedsNext checker.old checker.new (ahead lines.old (S.state src.old)) (ahead lines.new (S.state src.new)) lines.old.lines lines.new.lines) }
    ensures readable { OnOk result (reader.new.fault ≡ None) }
    ensures no_fault { OnOk result (lines.new.fault ≡ None) }
    ensures refused { IfRefused result (RefusesOn checker.old.site checker.old.arcs (ahead lines.old (S.state src.old)) lines.old.lines
        (state AtItem checker.old.budget checker.old.state []) (items_text checker.old.budget)) }
    ensures read { IfRead result (FaultsRose (S.state src.old) (S.state src.new)) }
    ensures count { FaultsOnlyRise (S.state src.old) (S.state src.new) }
{
    match reader.next(lines, src) {
        Ok(Next::Row) => {
            match checker.feed_row(lines.number(), reader.kind(), reader.members()) {
                Ok(()) => Ok(None),
                Err(refusal) => Err(DocumentFault::Refused(refusal)),
            }
        }
        Ok(Next::Work) => match checker.feed_work(lines.number(), reader.work()) {
            Ok(()) => Ok(None),
            Err(refusal) => Err(DocumentFault::Refused(refusal)),
        },
        Ok(Next::Layout(count)) => Ok(Some(count)),
        Err(fault) => Err(reading_fault(fault)),
    }
}

/// Reads the items and feeds them, up to the line `layout K`, and answers K.
fn feed_items<S: Source>(
    checker: &mut Checker<'_>,
    reader: &mut ItemReader,
    lines: &mut Lines,
    src: &mut S,
) -> Result<u32, DocumentFault>
    requires open { checker.old.refused ≡ None }
    requires readable { reader.old.fault ≡ None }
    requires no_fault { lines.old.fault ≡ None }
    ensures fed { IfOk result (FeedsToLayout checker.old checker.new (ahead lines.old (S.state src.old)) (ahead lines.new (S.state src.new)) lines.old.lines lines.new.lines) }
    ensures no_fault { OnOk result (lines.new.fault ≡ None) }
    ensures refused { IfRefused result (RefusesOn checker.old.site checker.old.arcs (ahead lines.old (S.state src.old)) lines.old.lines
        (state AtItem checker.old.budget checker.old.state []) (items_text checker.old.budget)) }
    ensures read { IfRead result (FaultsRose (S.state src.old) (S.state src.new)) }
    ensures count { FaultsOnlyRise (S.state src.old) (S.state src.new) }
{
    'items: loop {
        match feed_item(checker, reader, lines, src) {
            Ok(None) => {}
            Ok(Some(count)) => return Ok(count),
            Err(fault) => return Err(fault),
        }
    }
}

/// Reads the verdict line, and judges the claim by the layout and by what was fed.
fn judge_claim<S: Source>(
    checker: &mut Checker<'_>,
    lines: &mut Lines,
    src: &mut S,
    site: &Site,
    layout: &Layout,
) -> Result<Claim, DocumentFault>
    requires own_site { checker.old.site ≡ site.now }
    requires open { checker.old.refused ≡ None }
    requires no_fault { lines.old.fault ≡ None }
    ensures agrees { IfOk result (Agrees site.now checker.old.budget checker.old.state layout.now) }
    ensures range { IfOk result IsClaimInRange }
    ensures reads { IfOk result (λ claim. (front : List Item → List ℕ) → ReadsOn site.now checker.old.arcs (ahead lines.old (S.state src.old)) (ahead lines.new (S.state src.new))
        lines.old.lines lines.new.lines (state (AtCables 0) checker.old.budget checker.old.state layout.now) (state AtLast checker.old.budget checker.old.state layout.now)
        front (λ items. front items ++ claim_line site.now claim)) }
    ensures no_fault { OnOk result (lines.new.fault ≡ None) }
    ensures refused { IfRefused result (λ refusal. (front : List Item → List ℕ) → RefusesOn site.now checker.old.arcs (ahead lines.old (S.state src.old)) lines.old.lines
        (state (AtCables 0) checker.old.budget checker.old.state layout.now) front refusal) }
    ensures read { IfRead result (FaultsRose (S.state src.old) (S.state src.new)) }
    ensures count { FaultsOnlyRise (S.state src.old) (S.state src.new) }
{
    let _valid = site.points();
    let claim = match read_claim(lines, src, site) {
        Ok(claim) => claim,
        Err(fault) => return Err(reading_fault(fault)),
    };
    match checker.close(lines.number(), layout, claim) {
        Ok(_) => Ok(claim),
        Err(refusal) => Err(DocumentFault::Refused(refusal)),
    }
}

/// Reads the cables, the verdict and the last line, and judges the claim.
fn read_end_of_document<S: Source>(
    checker: &mut Checker<'_>,
    lines: &mut Lines,
    src: &mut S,
    site: &Site,
    count: u32,
    layout: &mut Layout,
) -> Result<Claim, DocumentFault>
    requires own_site { checker.old.site ≡ site.now }
    requires open { checker.old.refused ≡ None }
    requires no_fault { lines.old.fault ≡ None }
    requires empty { layout.old ≡ [] }
    requires most { count ≤ 256 }
    ensures accepted { IfOk result (λ claim. (first : Option (List ℕ)) (start : ℕ) → AreArcs site.now checker.old.arcs → IsBudget checker.old.budget
        → HasRead site.now checker.old.arcs first (ahead lines.old (S.state src.old)) start lines.old.lines
        (state (AtCables count) checker.old.budget checker.old.state []) (text_to_layout checker.old.budget count)
        → IsAcceptedBehind site.now first layout.new claim) }
    ensures whole { OnOk result (IsAtEnd (ahead lines.new (S.state src.new))) }
    ensures refused { IfRefused result (RefusesOn site.now checker.old.arcs (ahead lines.old (S.state src.old)) lines.old.lines
        (state (AtCables count) checker.old.budget checker.old.state []) (text_to_layout checker.old.budget count)) }
    ensures read { IfRead result (FaultsRose (S.state src.old) (S.state src.new)) }
    ensures count { FaultsOnlyRise (S.state src.old) (S.state src.new) }
{
    match read_layout(lines, src, site, count, true, layout) {
        Ok(()) => {}
        Err(fault) => return Err(reading_fault(fault)),
    }
    let claim = judge_claim(checker, lines, src, site, layout)?;
    match read_close(lines, src) {
        Ok(()) => Ok(claim),
        Err(fault) => Err(reading_fault(fault)),
    }
}

/// Reads the lines of a document behind those of its site to the end of the input, and checks each item
/// when it is read. The site's arcs are listed once, before the first line is read; once that line is read it
/// takes no memory, and it holds no list of items.
///
/// # Errors
///
/// `Refused` with the first line at which a cause holds and that cause, exactly where no document that is
/// accepted follows the site; `Read` only where the count of `src` rose or stands at its last value;
/// `Memory` where there is none for the checker.
pub fn read_document<S: Source>(
    alloc: Global,
    site: &Site,
    lines: &mut Lines,
    src: &mut S,
) -> Result<Accepted, DocumentFault>
    requires { lines.old.fault ≡ None }
    ensures accepted { IfOk result (λ d. IsAcceptedBehind site.now (ahead lines.old (S.state src.old)) d.layout d.claim) }
    ensures whole { OnOk result (IsAtEnd (S.state src.new).bytes) }
    // Line numbers are counted up to 2^64 - 1; a document that is refused has fewer than 60,000,000 lines
    // before the refusal.
    ensures refused { (refusal : AnyRefusal) (bytes : List ℕ) (arcs : List AnArc) → result ≡ Err (DocumentFault.Refused refusal)
        → ahead lines.old (S.state src.old) ≡ Some bytes → AreArcs site.now arcs → lines.old.lines + 60000000 < 2 ^ 64
        → IsRefusedAfter site.now arcs AtBudget bytes (lines.old.lines + 1) refusal.line refusal.cause }
    // A refusal speaks of the site's arcs, and there is a list of them.
    ensures listed { IfRefused result (λ refusal. (arcs : List AnArc) × AreArcs site.now arcs) }
    ensures read { result ≡ Err DocumentFault.Read → FaultsRose (S.state src.old) (S.state src.new) }
    ensures count { FaultsOnlyRise (S.state src.old) (S.state src.new) }
{
    let Ok(arcs) = Arcs::new(alloc, site) else {
        return Err(DocumentFault::Memory);
    };
    let Ok(mut reader) = ItemReader::new(alloc) else {
        return Err(DocumentFault::Memory);
    };
    let Ok(mut layout) = Layout::new(alloc) else {
        return Err(DocumentFault::Memory);
    };
    let mut checker = begin_document(alloc, site, arcs, &mut reader, lines, src)?;
    let count = feed_items(&mut checker, &mut reader, lines, src)?;
    let claim = read_end_of_document(&mut checker, lines, src, site, count, &mut layout)?;
    Ok(Accepted { layout, claim })
}
