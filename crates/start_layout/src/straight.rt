//! The layout that joins each turbine straight to a substation.

ghost use Rattle.std.specs.Prelude.{◌≡◌, ℕ, ◌+◌, ◌<◌, ◌↔◌, List, length, IsTrue, IfOk, IfSome, IfNone};
ghost use Rattle.cable_definitions.specs.declared.cable.Cable.{Cable as ACable};
ghost use Rattle.cable_definitions.specs.Arcs.{AreArcs, IsCandidate};
ghost use Rattle.cable_definitions.specs.Part.{IsStraight, IsStraightCable};
ghost use Rattle.start_layout.specs.Straight.{IsWayIn, IsBestTo, IsBestWayBelow};

use candidate_cables::Arcs;
use layout_meaning::{Cable, Layout};
use site_model::Site;
use std::alloc::{AllocError, Global};

/// Whether a candidate arc leads from one point to another.
fn is_arc(site: &Site, arcs: &Arcs, from: u32, to: u32) -> bool
    requires { AreArcs site.now arcs.now }
    ensures { IsTrue result ↔ IsCandidate site.now from to }
{
    match arcs.number(from, to) {
        None => false,
        Some(number) => true,
    }
}

/// The cheapest cable from a point to another at the first one's own power, with its cost, where the other is a substation to which a
/// candidate arc leads.
fn cable_to(site: &Site, arcs: &Arcs, from: u32, to: u32) -> Option<(Cable, u64)>
    requires arcs { AreArcs site.now arcs.now }
    requires from { from < length site.now.points }
    requires to { to < length site.now.points }
    ensures { IsBestTo site.now from to result }
{
    if !site.kind(to).is_substation() {
        return None;
    }
    if !is_arc(site, arcs, from, to) {
        return None;
    }
    let power = site.power(from);
    match site.cheapest(from, to, power) {
        None => None,
        Some((grade, cost)) => Some((Cable { from, to, grade }, cost)),
    }
}

/// The cheaper of two cables, the first where they cost the same.
fn cheaper_cable(
    site: &Site,
    from: u32,
    to: u32,
    best: Option<(Cable, u64)>,
    other: Option<(Cable, u64)>,
) -> Option<(Cable, u64)>
    requires best { IsBestWayBelow site.now from to best }
    requires other { IsBestTo site.now from to other }
    ensures { IsBestWayBelow site.now from (to + 1) result }
{
    match best {
        None => other,
        Some((cable, cost)) => match other {
            None => Some((cable, cost)),
            Some((other_cable, other_cost)) => {
                if other_cost < cost {
                    Some((other_cable, other_cost))
                } else {
                    Some((cable, cost))
                }
            }
        },
    }
}

/// The cable that joins a point straight to a substation at the point's own power, with its cost: of all such cables the cheapest, of equal
/// costs the one to the least substation number, of the least type number. None exactly where there is no such cable.
pub(crate) fn straight_cable(site: &Site, arcs: &Arcs, from: u32) -> Option<(Cable, u64)>
    requires arcs { AreArcs site.now arcs.now }
    requires from { from < length site.now.points }
    ensures { IsBestWayBelow site.now from (length site.now.points) result }
{
    let mut best = None;
    for to in 0..site.points().len() as u32 {
        let other = cable_to(site, arcs, from, to);
        best = cheaper_cable(site, from, to, best, other);
    }
    best
}

/// The straight layout. None where there is none, since some turbine has no candidate arc to a substation.
pub(crate) fn straight_layout(
    alloc: Global,
    site: &Site,
    arcs: &Arcs,
) -> Result<Option<Layout>, AllocError>
    requires { AreArcs site.now arcs.now }
    ensures some { IfOk result (λ found. IfSome found (IsStraight site.now)) }
    ensures none { IfOk result (λ found. IfNone found ((cables : List ACable) → ¬ (IsStraight site.now cables))) }
{
    let mut layout = Layout::new(alloc)?;
    for turbine in 0..site.points().len() as u32 {
        if site.kind(turbine).is_turbine() {
            match straight_cable(site, arcs, turbine) {
                None => return Ok(None),
                Some((cable, cost)) => {
                    let _ = layout.push(cable);
                }
            }
        }
    }
    Ok(Some(layout))
}
