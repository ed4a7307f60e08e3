//! The search for the arcs that clash with one.

ghost use Rattle.std.specs.Prelude.{◌≡◌, ◌<◌, ◌↔◌, IsTrue, length, IfOk, slice_get, Some};
ghost use Rattle.cable_definitions.specs.Site.{IsValid};
ghost use Rattle.cable_definitions.specs.Arcs.{AreArcs};
ghost use Rattle.cable_definitions.specs.Layout.{PairsClash};
ghost use Rattle.candidate_cables.specs.Listing.{JoinsPoints};
ghost use Rattle.crossing_index.specs.Sides.{HasSides};
ghost use Rattle.crossing_index.specs.Clashing.{AreClashing};

use crate::sides::{POINTS, Side, is_beside, sides_of};
use candidate_cables::{Arc, Arcs};
use site_model::Site;
use std::alloc::{AllocError, Global};

/// Whether an arc joins another pair of points than this one and clashes with it, where the sides of the points are at hand.
fn is_clash(site: &Site, sides: &[Side; POINTS], arc: Arc, other: Arc) -> bool
    requires valid { IsValid site.now }
    requires first { JoinsPoints site.now arc }
    requires second { JoinsPoints site.now other }
    requires sides { HasSides site.now arc sides.now }
    ensures { IsTrue result ↔ PairsClash site.now arc.from arc.to other.from other.to }
{
    if is_beside(sides, other) {
        return false;
    }
    site.pairs_clash(arc.from, arc.to, other.from, other.to)
}

/// The numbers of the arcs that clash with the one of this number, ascending.
pub(crate) fn clashing_numbers(
    alloc: Global,
    site: &Site,
    arcs: &Arcs,
    arc: u32,
) -> Result<Vec<u32>, AllocError>
    requires arcs { AreArcs site.now arcs.now }
    requires arc { arc < length arcs.now }
    ensures { IfOk result (λ numbers. AreClashing site.now arcs.now arc numbers.items) }
{
    let own = arcs.get(arc);
    let sides = sides_of(site, own);
    let mut numbers = Vec::new(alloc);
    for number in 0..arcs.len() {
        if is_clash(site, &sides, own, arcs.get(number)) {
            numbers.push(number)?;
        }
    }
    Ok(numbers)
}
