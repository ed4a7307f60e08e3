//! What no legal layout costs more than.

ghost use Rattle.std.specs.Prelude.{◌≡◌, ◌≤◌, ◌<◌, length, if◌then◌else◌};
ghost use Rattle.cable_definitions.specs.Arcs.{AreArcs, kind_of, is_substation};
ghost use Rattle.cable_definitions.specs.Tree.{ceiling as ceiling_of, greatest_out as greatest_cost_out, greatest_of_types as greatest_cost_of_types};
ghost use Rattle.site_model.specs.Best.{most_cost};
ghost use Rattle.candidate_cables.specs.Listing.{IsArc};

use crate::choices::cost_along;
use candidate_cables::{Arc, Arcs};
use site_model::Site;

/// The greatest cost of an arc under any type, at the type's capacity as load.
fn greatest_of_types(site: &Site, arc: Arc) -> u64
    requires { IsArc site.now arc }
    ensures greatest { result ≡ greatest_cost_of_types site.now arc }
    ensures most { result ≤ most_cost }
{
    let mut most = 0;
    for grade in 0..site.types().len() as u32 {
        let load = site.types()[grade as usize].capacity;
        most = most.max(cost_along(site, arc, grade, load));
    }
    most
}

/// The greatest cost of an arc out of a point under any type, at the type's capacity as load; 0 where no arc starts there.
fn greatest_out(site: &Site, arcs: &Arcs, p: u32) -> u64
    requires { AreArcs site.now arcs.now }
    ensures greatest { result ≡ greatest_cost_out site.now arcs.now p }
    ensures most { result ≤ most_cost }
{
    let (first, past) = arcs.out_of(p);
    let mut most = 0;
    for number in first..past {
        most = most.max(greatest_of_types(site, arcs.get(number)));
    }
    most
}

/// What a point adds to the ceiling: a substation nothing, another point the greatest cost out of it.
fn greatest_beyond(site: &Site, arcs: &Arcs, p: u32) -> u64
    requires arcs { AreArcs site.now arcs.now }
    requires point { p < length site.now.points }
    ensures greatest { result ≡ (if is_substation (kind_of site.now p) then 0 else greatest_cost_out site.now arcs.now p) }
    ensures most { result ≤ most_cost }
{
    if site.points()[p as usize].kind.is_substation() {
        return 0;
    }
    greatest_out(site, arcs, p)
}

/// The sum, over all points that aren't substations, of the greatest cost of a candidate arc out of the point under any cable type, at the
/// type's capacity as load, in cost units; a point without an arc counts 0. The arcs are those of the site. No legal layout costs more. It
/// takes no memory.
pub fn ceiling(site: &Site, arcs: &Arcs) -> u64
    requires { AreArcs site.now arcs.now }
    ensures { result ≡ ceiling_of site.now arcs.now }
{
    let mut total = 0;
    for p in 0..site.points().len() as u32 {
        total += greatest_beyond(site, arcs, p);
    }
    total
}
