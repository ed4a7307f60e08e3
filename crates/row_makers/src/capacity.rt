//! Sets of points that need more cables than their shares give.

ghost use Rattle.std.specs.Prelude.{◌≡◌, ◌≢◌, ◌<◌, ◌≤◌, ◌+◌, ◌-◌, ◌*◌, ◌^◌, ℕ, List, [], ◌∷◌, length, sum_by, true, IfOk, IfSome, IfNone};
ghost use Rattle.cable_definitions.specs.Arcs.{AreArcs, kind_of, is_turbine as is_turbine_of, power_of, largest_capacity};
ghost use Rattle.cable_definitions.specs.Row.{rounded_up};
ghost use Rattle.bound_shares.specs.Shares.{ViolateCut};
ghost use Rattle.cable_rows.specs.Made.{row_made};
ghost use Rattle.row_makers.specs.Found.{IsViolatedCut};
ghost use Rattle.row_makers.specs.Tried.{turbines_and_bends as turbines_and_bends_of, missing, IsTried};
ghost use Rattle.row_makers.specs.Most.{tried_members, MayTry, IsMost, IsMostBelow, IsMostOfAll};

use crate::sums::Sums;
use bound_shares::Shares;
use cable_rows::{Row, RowKind};
use candidate_cables::Arcs;
use site_model::{Kind, Site};
use std::alloc::{AllocError, Global};

/// A set of points that is tried: a turbine, two turbines with the lesser number first, or all turbines and bends.
#[derive(Clone, Copy)]
enum Tried {
    Turbine(u32),
    Pair(u32, u32),
    Whole,
}

/// The set that misses most of those that were tried, and how much it misses over 2^20.
#[derive(Clone, Copy)]
struct Most {
    set: Tried,
    missing: u64,
}

/// The turbines and bends of a site, ascending.
fn turbines_and_bends(alloc: Global, site: &Site) -> Result<Vec<u32>, AllocError>
    ensures { IfOk result (λ members. members.items ≡ turbines_and_bends_of site.now) }
{
    let mut members = Vec::new(alloc);
    for p in 0..site.points().len() as u32 {
        match site.kind(p) {
            Kind::Substation { .. } => {}
            _ => members.push(p)?,
        }
    }
    Ok(members)
}

/// What the turbines of a site feed in together.
fn total_power(site: &Site) -> u32
    ensures total { result ≡ sum_by (power_of site.now) (turbines_and_bends_of site.now) }
    ensures most { result ≤ 256000 }
{
    let mut total = 0;
    for p in 0..site.points().len() as u32 {
        total += site.power(p);
    }
    total
}

/// How much more shares the power of a set asks for than those that leave it; 0 where they are enough.
fn missing_for(site: &Site, power: u32, leaving: u64) -> u64
    requires { power ≤ 256000 }
    ensures { result ≡ 2 ^ 20 * rounded_up power (largest_capacity site.now) - leaving }
{
    let capacity = site.largest_capacity();
    let cables = (power + (capacity - 1)) / capacity;
    (1_048_576 * u64::from(cables)).saturating_sub(leaving)
}

/// How much more shares a set asks for than those that leave it; 0 where they are enough.
fn missing_of(site: &Site, sums: &Sums, set: Tried) -> u64
    requires arcs { AreArcs site.now sums.now.arcs }
    requires set { MayTry site.now set }
    ensures { result ≡ missing site.now sums.now.arcs sums.now.shares (tried_members site.now set) }
{
    // The points of a site come with the fact that it is valid.
    let _points = site.points();
    match set {
        Tried::Turbine(p) => missing_for(site, site.power(p), sums.leaving_one(p)),
        Tried::Pair(p, q) => {
            let power = site.power(p) + site.power(q);
            missing_for(site, power, sums.leaving_two(p, q))
        }
        Tried::Whole => missing_for(site, total_power(site), sums.leaving_all(site)),
    }
}

/// Of the set that misses most so far and another one the one that misses more, or the first where they are even.
fn with_set(site: &Site, sums: &Sums, most: Most, set: Tried) -> Most
    requires arcs { AreArcs site.now sums.now.arcs }
    requires set { MayTry site.now set }
    requires most { IsMost site.now sums.now.arcs sums.now.shares most }
    ensures most { IsMost site.now sums.now.arcs sums.now.shares result }
    ensures as_much { most.missing ≤ result.missing }
    ensures tried { missing site.now sums.now.arcs sums.now.shares (tried_members site.now set) ≤ result.missing }
{
    let missing = missing_of(site, sums, set);
    if missing <= most.missing {
        return most;
    }
    Most { set, missing }
}

/// The set that misses most so far, or where one of these misses more, a turbine with another one before it.
fn with_pairs(site: &Site, sums: &Sums, first: Most, q: u32) -> Most
    requires arcs { AreArcs site.now sums.now.arcs }
    requires turbine { is_turbine_of (kind_of site.now q) ≡ true }
    requires most { IsMost site.now sums.now.arcs sums.now.shares first }
    ensures most { IsMost site.now sums.now.arcs sums.now.shares result }
    ensures as_much { first.missing ≤ result.missing }
    ensures tried { (p : ℕ) → p < q → is_turbine_of (kind_of site.now p) ≡ true → missing site.now sums.now.arcs sums.now.shares (p ∷ q ∷ []) ≤ result.missing }
{
    let mut most = first;
    for p in 0..q {
        if site.kind(p).is_turbine() {
            most = with_set(site, sums, most, Tried::Pair(p, q));
        }
    }
    most
}

/// The set that misses most so far, or where one of these misses more, a turbine alone or with another one before it. Another point changes nothing.
fn with_point(site: &Site, sums: &Sums, most: Most, q: u32) -> Most
    requires arcs { AreArcs site.now sums.now.arcs }
    requires most { IsMostBelow site.now sums.now.arcs sums.now.shares q most }
    ensures { IsMostBelow site.now sums.now.arcs sums.now.shares (q + 1) result }
{
    if !site.kind(q).is_turbine() {
        return most;
    }
    let alone = with_set(site, sums, most, Tried::Turbine(q));
    with_pairs(site, sums, alone, q)
}

/// The set that misses most of all that are tried.
fn most_missing(site: &Site, sums: &Sums) -> Most
    requires { AreArcs site.now sums.now.arcs }
    ensures { IsMostOfAll site.now sums.now.arcs sums.now.shares result }
{
    let set = Tried::Whole;
    let mut most = Most {
        set,
        missing: missing_of(site, sums, set),
    };
    for q in 0..site.points().len() as u32 {
        most = with_point(site, sums, most, q);
    }
    most
}

/// The points of a set.
fn members_of(alloc: Global, site: &Site, set: Tried) -> Result<Vec<u32>, AllocError>
    ensures { IfOk result (λ members. members.items ≡ tried_members site.now set) }
{
    let mut members = Vec::new(alloc);
    match set {
        Tried::Turbine(p) => members.push(p)?,
        Tried::Pair(p, q) => {
            members.push(p)?;
            members.push(q)?;
        }
        Tried::Whole => members = turbines_and_bends(alloc, site)?,
    }
    Ok(members)
}

/// A `Cut` that the shares violate: of a turbine, of two turbines, or of all turbines and bends, whichever misses most of the shares that its power
/// asks for. None exactly where the shares violate none of these. The arcs are those of the site, and a share of 2^20 is a whole cable.
///
/// # Errors
///
/// `AllocError` where there is no memory.
pub fn capacity_row(
    alloc: Global,
    site: &Site,
    arcs: &Arcs,
    shares: &Shares,
) -> Result<Option<Row>, AllocError>
    requires arcs { AreArcs site.now arcs.now }
    requires shares { length shares.now ≡ length arcs.now }
    ensures cut { IfOk result (λ answer. IfSome answer (λ row. IsViolatedCut site.now arcs.now shares.now (row_made row))) }
    ensures tried { IfOk result (λ answer. IfSome answer (λ row. IsTried site.now row.members)) }
    ensures most { IfOk result (λ answer. IfSome answer (λ row. (members : List ℕ) → IsTried site.now members → missing site.now arcs.now shares.now members ≤ missing site.now arcs.now shares.now row.members)) }
    ensures none { IfOk result (λ answer. IfNone answer ((members : List ℕ) → IsTried site.now members → ¬ (ViolateCut site.now arcs.now shares.now members))) }
{
    // The points of a site come with the fact that it is valid.
    let _points = site.points();
    let sums = Sums::new(alloc, site, arcs, shares)?;
    let most = most_missing(site, &sums);
    if most.missing == 0 {
        return Ok(None);
    }
    let members = members_of(alloc, site, most.set)?;
    Ok(Some(Row::new(alloc, RowKind::Cut, members.as_slice())?))
}
