//! Arcs that can't be together and have more shares than one cable.

ghost use Rattle.std.specs.Prelude.{◌≡◌, ◌<◌, ◌≤◌, ◌+◌, ◌↔◌, ℕ, [], ◌∷◌, All, length, slice_get, Some, IsTrue, IfOk, IfSome, IfNone};
ghost use Rattle.cable_definitions.specs.Arcs.{AreArcs};
ghost use Rattle.cable_definitions.specs.Row.{IsWellFormed};
ghost use Rattle.bound_shares.specs.Shares.{member_shares};
ghost use Rattle.cable_rows.specs.Made.{row_made};
ghost use Rattle.row_makers.specs.Found.{IsViolatedOne};
ghost use Rattle.row_makers.specs.Rivals.{AreRivals, AreShared, HasNoRival};

use crate::larger::with_more;
use bound_shares::Shares;
use cable_rows::{Row, RowKind, row_form};
use candidate_cables::Arcs;
use crossing_index::Crossings;
use site_model::Site;
use std::alloc::{AllocError, Global};

/// The share of a whole cable.
const WHOLE: u32 = 1_048_576;

/// The share of half a cable.
const HALF: u32 = 524_288;

/// The arcs that have some share, ascending.
fn shared_arcs(alloc: Global, arcs: &Arcs, shares: &Shares) -> Result<Vec<u32>, AllocError>
    requires { length shares.now ≡ length arcs.now }
    ensures { IfOk result (λ shared. AreShared shares.now shared.items) }
{
    let mut shared = Vec::new(alloc);
    for a in 0..arcs.len() {
        if shares.get(a) > 0 {
            shared.push(a)?;
        }
    }
    Ok(shared)
}

/// Whether two arcs are incompatible and have more shares than one cable.
fn are_rivals(site: &Site, arcs: &Arcs, shares: &Shares, a: u32, b: u32) -> bool
    requires arcs { AreArcs site.now arcs.now }
    requires shares { length shares.now ≡ length arcs.now }
    requires first { a < length arcs.now }
    requires second { b < length arcs.now }
    ensures { IsTrue result ↔ AreRivals site.now arcs.now shares.now a b }
{
    if shares.get(a) + shares.get(b) <= WHOLE {
        return false;
    }
    arcs.incompatible(site, a, b)
}

/// Of some arcs the first that is incompatible with an arc of more than half a cable and has with it more shares than one cable.
fn rival_of(site: &Site, arcs: &Arcs, shares: &Shares, shared: &[u32], a: u32) -> Option<u32>
    requires arcs { AreArcs site.now arcs.now }
    requires shares { length shares.now ≡ length arcs.now }
    requires shared { AreShared shares.now shared.now }
    requires first { a < length arcs.now }
    ensures some { IfSome result (AreRivals site.now arcs.now shares.now a) }
    ensures none { IfNone result (HasNoRival site.now arcs.now shares.now a) }
{
    if shares.get(a) <= HALF {
        return None;
    }
    for b in shared {
        if are_rivals(site, arcs, shares, a, *b) {
            return Some(*b);
        }
    }
    None
}

/// The sum of the shares of arcs, which are in ascending order.
fn sum_of(arcs: &Arcs, shares: &Shares, members: &[u32]) -> u64
    requires shares { length shares.now ≡ length arcs.now }
    requires range { All (λ m. m < length arcs.now) members.now }
    requires few { length members.now ≤ 256 }
    requires order { (i m n : ℕ) → slice_get members.now i ≡ Some m → slice_get members.now (i + 1) ≡ Some n → m < n }
    ensures { result ≡ member_shares members.now shares.now }
{
    let mut total = 0;
    for member in members {
        total += u64::from(shares.get(*member));
    }
    total
}

/// Whether arcs make a row that the shares violate.
fn is_violated(site: &Site, arcs: &Arcs, shares: &Shares, members: &[u32]) -> bool
    requires arcs { AreArcs site.now arcs.now }
    requires shares { length shares.now ≡ length arcs.now }
    ensures { IsTrue result → IsViolatedOne site.now arcs.now shares.now (record { kind = RowKind.One; members = members.now }) }
{
    match row_form(site, arcs, RowKind::One, members) {
        Err(_) => false,
        Ok(()) => sum_of(arcs, shares, members) > u64::from(WHOLE),
    }
}

/// The `One` of two arcs, the lesser number first.
fn pair_row(
    alloc: Global,
    site: &Site,
    arcs: &Arcs,
    shares: &Shares,
    a: u32,
    b: u32,
) -> Result<Row, AllocError>
    requires arcs { AreArcs site.now arcs.now }
    requires order { a < b }
    requires rivals { AreRivals site.now arcs.now shares.now a b }
    ensures { IfOk result (λ row. IsViolatedOne site.now arcs.now shares.now (row_made row)) }
{
    // The points of a site come with the fact that it is valid.
    let _points = site.points();
    let pair = [a, b];
    Row::new(alloc, RowKind::One, pair.as_slice())
}

/// The `One` of two arcs, with further ones where these make a row.
fn one_row(
    alloc: Global,
    site: &Site,
    arcs: &Arcs,
    crossings: &Crossings,
    shares: &Shares,
    a: u32,
    b: u32,
) -> Result<Row, AllocError>
    requires arcs { AreArcs site.now arcs.now }
    requires shares { length shares.now ≡ length arcs.now }
    requires crossings { crossings.now ≡ record { site = site.now; arcs = arcs.now } }
    requires rivals { AreRivals site.now arcs.now shares.now a b }
    ensures { IfOk result (λ row. IsViolatedOne site.now arcs.now shares.now (row_made row)) }
{
    let members = with_more(alloc, site, arcs, crossings, shares, a, b)?;
    if is_violated(site, arcs, shares, members.as_slice()) {
        return Row::new(alloc, RowKind::One, members.as_slice());
    }
    if a < b {
        return pair_row(alloc, site, arcs, shares, a, b);
    }
    pair_row(alloc, site, arcs, shares, b, a)
}

/// A `One` that the shares violate: two arcs that clash, start together or are each other's reverse, with shares that sum to more than 2^20, and
/// further arcs with some share which are incompatible with all of these. None exactly where no two incompatible arcs have shares that sum to more
/// than 2^20. The arcs are those of the site, and a share of 2^20 is a whole cable.
///
/// # Errors
///
/// `AllocError` where there is no memory.
pub fn crossing_row(
    alloc: Global,
    site: &Site,
    arcs: &Arcs,
    crossings: &Crossings,
    shares: &Shares,
) -> Result<Option<Row>, AllocError>
    requires arcs { AreArcs site.now arcs.now }
    requires crossings { crossings.now ≡ record { site = site.now; arcs = arcs.now } }
    requires shares { length shares.now ≡ length arcs.now }
    ensures one { IfOk result (λ answer. IfSome answer (λ row. IsViolatedOne site.now arcs.now shares.now (row_made row))) }
    ensures none { IfOk result (λ answer. IfNone answer ((a b : ℕ) → ¬ (AreRivals site.now arcs.now shares.now a b))) }
{
    // The points of a site come with the fact that it is valid.
    let _points = site.points();
    let shared = shared_arcs(alloc, arcs, shares)?;
    for a in shared.as_slice() {
        if let Some(b) = rival_of(site, arcs, shares, shared.as_slice(), *a) {
            let row = one_row(alloc, site, arcs, crossings, shares, *a, b)?;
            return Ok(Some(row));
        }
    }
    Ok(None)
}
