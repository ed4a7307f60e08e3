//! Whether a row is well formed, and the first thing that keeps it from being so.

ghost use Rattle.std.specs.Prelude.{◌≡◌, ◌≢◌, ◌+◌, ◌<◌, ◌≤◌, ◌↔◌, ℕ, List, [], length, IsTrue, All, OnOk, IfErr};
ghost use Rattle.cable_definitions.specs.declared.cable.Cable.{Cable};
ghost use Rattle.cable_definitions.specs.Arcs.{AreArcs};
ghost use Rattle.cable_definitions.specs.Layout.{IsLegal};
ghost use Rattle.cable_definitions.specs.Row.{IsWellFormed, IsRowFault, Holds, InRange, Ascending, RightKind, NoSubstation, Incompatible, has_one_member, member_count as member_count_of, speaks_of as speaks_of_kind};
ghost use Rattle.cable_rows.specs.Form.{IsMet, IsFirstUnmet, IsPairedWell, IsFirstBadPair};

use cable_definitions::row::{RowFault, RowKind};
use candidate_cables::Arcs;
use site_model::{Kind, Site};

/// Whether a row of this kind may have so many members.
fn may_have(kind: RowKind, count: usize) -> bool
    ensures { IsTrue result ↔ ((IsTrue (has_one_member kind) → count ≡ 1) × (count ≤ 256)) }
{
    match kind {
        RowKind::One | RowKind::Cut => count <= 256,
        _ => count == 1,
    }
}

/// How many numbers there are for members of a row of this kind.
fn member_count(site: &Site, arcs: &Arcs, kind: RowKind) -> u32
    ensures { result ≡ member_count_of site.now arcs.now kind }
{
    match kind {
        RowKind::One => arcs.len(),
        _ => site.points().len() as u32,
    }
}

/// Whether rows of a kind speak of points of that kind.
pub fn speaks_of(row: RowKind, kind: Kind) -> bool
    ensures { result ≡ speaks_of_kind row kind }
{
    match row {
        RowKind::Out => matches!(kind, Kind::Turbine { .. }),
        RowKind::Flow => !matches!(kind, Kind::Substation { .. }),
        RowKind::Bend => matches!(kind, Kind::Bend),
        RowKind::Power => matches!(kind, Kind::Substation { .. }),
        RowKind::Inlet | RowKind::One | RowKind::Cut => true,
    }
}

/// Whether each member is a point, or for `One` an arc.
fn check_range(site: &Site, arcs: &Arcs, kind: RowKind, members: &[u32]) -> Result<(), RowFault>
    ensures met { OnOk result (IsMet site.now arcs.now kind members.now InRange) }
    ensures unmet { IfErr result (IsFirstUnmet site.now arcs.now kind members.now InRange) }
{
    let count = member_count(site, arcs, kind);
    for (place, member) in members.iter().enumerate() {
        if *member >= count {
            return Err(RowFault::Range(*member));
        }
    }
    Ok(())
}

/// Whether each member is above the one before it.
fn check_order(site: &Site, arcs: &Arcs, kind: RowKind, members: &[u32]) -> Result<(), RowFault>
    ensures met { OnOk result (IsMet site.now arcs.now kind members.now Ascending) }
    ensures unmet { IfErr result (IsFirstUnmet site.now arcs.now kind members.now Ascending) }
{
    for place in 1..members.len() {
        if members[place] <= members[place - 1] {
            return Err(RowFault::Order(members[place]));
        }
    }
    Ok(())
}

/// Whether the row speaks of each of its points.
fn check_kinds(site: &Site, arcs: &Arcs, kind: RowKind, members: &[u32]) -> Result<(), RowFault>
    ensures met { OnOk result (IsMet site.now arcs.now kind members.now RightKind) }
    ensures unmet { IfErr result (IsFirstUnmet site.now arcs.now kind members.now RightKind) }
{
    for (place, member) in members.iter().enumerate() {
        if !speaks_of(kind, site.kind(*member)) {
            return Err(RowFault::OtherKind(*member));
        }
    }
    Ok(())
}

/// Whether no member of a `Cut` is a substation.
fn check_substations(
    site: &Site,
    arcs: &Arcs,
    kind: RowKind,
    members: &[u32],
) -> Result<(), RowFault>
    ensures met { OnOk result (IsMet site.now arcs.now kind members.now NoSubstation) }
    ensures unmet { IfErr result (IsFirstUnmet site.now arcs.now kind members.now NoSubstation) }
{
    let RowKind::Cut = kind else {
        return Ok(());
    };
    for (place, member) in members.iter().enumerate() {
        if site.kind(*member).is_substation() {
            return Err(RowFault::Substation(*member));
        }
    }
    Ok(())
}

/// Whether the arc at a place of the list is incompatible with each later one.
fn check_pairs_of(site: &Site, arcs: &Arcs, members: &[u32], first: usize) -> Result<(), RowFault>
    requires arcs { AreArcs site.now arcs.now }
    requires first { first < length members.now }
    requires members { All (λ m. m < length arcs.now) members.now }
    ensures met { OnOk result ((second : ℕ) → IsPairedWell site.now arcs.now members.now first second) }
    ensures unmet { IfErr result (IsFirstBadPair site.now arcs.now members.now first) }
{
    for second in first + 1..members.len() {
        if !arcs.incompatible(site, members[first], members[second]) {
            return Err(RowFault::NotIncompatible(members[first], members[second]));
        }
    }
    Ok(())
}

/// Whether each two arcs of a `One` are incompatible.
fn check_pairs(site: &Site, arcs: &Arcs, kind: RowKind, members: &[u32]) -> Result<(), RowFault>
    requires arcs { AreArcs site.now arcs.now }
    requires range { IsMet site.now arcs.now kind members.now InRange }
    ensures met { OnOk result (IsMet site.now arcs.now kind members.now Incompatible) }
    ensures unmet { IfErr result (IsFirstUnmet site.now arcs.now kind members.now Incompatible) }
{
    let RowKind::One = kind else {
        return Ok(());
    };
    for first in 0..members.len() {
        check_pairs_of(site, arcs, members, first)?;
    }
    Ok(())
}

/// Whether a row of this kind with these members is well formed; the arcs are those of the site. A well-formed row holds of every legal
/// layout. It takes no memory.
///
/// # Errors
///
/// The first of these that is so, in this order:
///
/// - `Empty`: there is no member;
/// - `Count`: a row of one member has another number of members, or there are more than 256;
/// - `Range(m)`: m is the first member that is no point, or no arc for `One`;
/// - `Order(m)`: m is the first member that isn't above the one before it;
/// - `OtherKind(p)`: p is the first point of which a row of this kind doesn't speak;
/// - `Substation(p)`: p is the first substation in a `Cut`;
/// - `NotIncompatible(a, b)`: a and b are the first two arcs of a `One`, by the place of a, then of b, that aren't incompatible.
pub fn row_form(site: &Site, arcs: &Arcs, kind: RowKind, members: &[u32]) -> Result<(), RowFault>
    requires { AreArcs site.now arcs.now }
    ensures well_formed { OnOk result (IsWellFormed site.now arcs.now (record { kind = kind; members = members.now })) }
    ensures fault { IfErr result (IsRowFault site.now arcs.now kind members.now) }
    ensures holds { OnOk result ((cables : List Cable) → IsLegal site.now cables → Holds site.now arcs.now (record { kind = kind; members = members.now }) cables) }
{
    // The points of a site come with the fact that it is valid.
    let _points = site.points();
    if members.is_empty() {
        return Err(RowFault::Empty);
    }
    if !may_have(kind, members.len()) {
        return Err(RowFault::Count);
    }
    check_range(site, arcs, kind, members)?;
    check_order(site, arcs, kind, members)?;
    check_kinds(site, arcs, kind, members)?;
    check_substations(site, arcs, kind, members)?;
    check_pairs(site, arcs, kind, members)
}
