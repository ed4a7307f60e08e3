//! What an arc costs with its start's own power as load.

ghost use Rattle.std.specs.Prelude.{◌≡◌, ◌≤◌, ◌<◌, length, slice_get, Some};
ghost use Rattle.cable_definitions.specs.declared.cable.Arc.{Arc as AnArc};
ghost use Rattle.cable_definitions.specs.Arcs.{AreArcs};
ghost use Rattle.site_model.specs.Best.{most_cost};
ghost use Rattle.candidate_cables.specs.OwnCosts.{IsOwnCost};

use crate::Arcs;
use site_model::Site;

/// The least cost in cost units of an arc of the site, by its number, with its start's own power as load, over the types that bear it.
pub fn own_cost(site: &Site, arcs: &Arcs, number: u32) -> u64
    requires arcs { AreArcs site.now arcs.now }
    requires number { number < length arcs.now }
    ensures cost { (a : AnArc) → slice_get arcs.now number ≡ Some a → IsOwnCost site.now a result }
    ensures small { result ≤ most_cost }
{
    let arc = arcs.get(number);
    let power = site.points()[arc.from as usize].kind.power();
    // Some type bears the power of the start of a candidate arc.
    let (_, cost) = site.cheapest_on(arc, power).unwrap();
    cost
}
