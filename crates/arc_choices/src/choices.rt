//! The least that a choice of an arc leaves of its cost.

ghost use Rattle.std.specs.Prelude.{◌≡◌, ◌^◌, ◌≤◌, ◌<◌, ℤ, pos, ◌-ℤ◌, ◌*◌, ◌*ℤ◌, ◌+◌, length, unsigned_abs, slice_get, Some};
ghost use Rattle.cable_definitions.specs.declared.cable.Arc.{Arc as AnArc};
ghost use Rattle.cable_definitions.specs.Arcs.{AreArcs, Bears, kind_of, cost_of};
ghost use Rattle.cable_definitions.specs.Choice.{IsExtreme, AtMost, least_load};
ghost use Rattle.site_model.specs.Best.{most_cost};
ghost use Rattle.candidate_cables.specs.Listing.{IsArc};
ghost use Rattle.arc_choices.specs.Least.{left_over, IsBestLoad, IsLeastOfType, IsLeastOfTypesBelow, lesser_left as lesser_of};

use cable_definitions::row::Mark;
use candidate_cables::{Arc, Arcs};
use site_model::Site;

/// How many units of what is left make a cost unit.
const UNITS: i128 = 1_048_576;

/// The load between two loads at which an arc counts the most, where each unit counts as `on_load`.
fn best_load(least: u32, capacity: u32, on_load: i128) -> u32
    requires { least ≤ capacity }
    ensures { IsBestLoad least capacity on_load result }
{
    if on_load < 0 {
        return least;
    }
    capacity
}

/// What a use at a cost and a load leaves of the cost.
fn left_of(cost: u64, load: u32, on_use: i128, on_load: i128) -> i128
    requires cost { cost ≤ most_cost }
    requires load { load ≤ 10000 }
    requires on_use { unsigned_abs on_use ≤ 2 ^ 86 }
    requires on_load { unsigned_abs on_load ≤ 2 ^ 86 }
    ensures { result ≡ (pos (2 ^ 20 * cost) -ℤ on_use *ℤ pos 1) -ℤ on_load *ℤ pos load }
{
    UNITS * i128::from(cost) - on_use - on_load * i128::from(load)
}

/// What a cable of a type costs along an arc at a load.
pub(crate) fn cost_along(site: &Site, arc: Arc, grade: u32, load: u32) -> u64
    requires arc { IsArc site.now arc }
    requires bears { Bears site.now grade load }
    ensures cost { result ≡ cost_of site.now arc.from arc.to grade load }
    ensures most { result ≤ most_cost }
{
    // The types of a site come with the fact that it is valid, which bounds its costs.
    let cable_type = site.types()[grade as usize];
    let load = u64::from(load);
    let rate = u64::from(cable_type.price) + u64::from(cable_type.loss) * load * load;
    u64::from(arc.length) * rate + arc.charge
}

/// The least that a use of the arc by a type leaves of its cost, over the loads from the least one up to the type's capacity.
fn least_of_type(site: &Site, arc: Arc, grade: u32, least: u32, on_use: i128, on_load: i128) -> i128
    requires arc { IsArc site.now arc }
    requires least { least ≡ least_load (kind_of site.now arc.from) }
    requires bears { Bears site.now grade least }
    requires on_use { unsigned_abs on_use ≤ 2 ^ 86 }
    requires on_load { unsigned_abs on_load ≤ 2 ^ 86 }
    ensures { IsLeastOfType site.now arc on_use on_load grade result }
{
    let load = best_load(least, site.types()[grade as usize].capacity, on_load);
    let cost = cost_along(site, arc, grade, load);
    left_of(cost, load, on_use, on_load)
}

/// The lesser of two numbers, of which the first may be missing.
fn lesser(least: Option<i128>, left: i128) -> i128
    ensures { result ≡ lesser_of least left }
{
    match least {
        None => left,
        Some(least) => least.min(left),
    }
}

/// The least over the types up to this one, from the least over those before it.
fn lesser_with_type(
    site: &Site,
    arc: Arc,
    grade: u32,
    load: u32,
    on_use: i128,
    on_load: i128,
    least: Option<i128>,
) -> Option<i128>
    requires arc { IsArc site.now arc }
    requires grade { grade < length site.now.types }
    requires load { load ≡ least_load (kind_of site.now arc.from) }
    requires on_use { unsigned_abs on_use ≤ 2 ^ 86 }
    requires on_load { unsigned_abs on_load ≤ 2 ^ 86 }
    requires least { IsLeastOfTypesBelow site.now arc on_use on_load grade least }
    ensures { IsLeastOfTypesBelow site.now arc on_use on_load (grade + 1) result }
{
    if load > site.types()[grade as usize].capacity {
        return least;
    }
    let left = least_of_type(site, arc, grade, load, on_use, on_load);
    Some(lesser(least, left))
}

/// The least that a choice which uses the arc leaves of its cost.
fn least_used(site: &Site, arc: Arc, on_use: i128, on_load: i128) -> i128
    requires arc { IsArc site.now arc }
    requires on_use { unsigned_abs on_use ≤ 2 ^ 86 }
    requires on_load { unsigned_abs on_load ≤ 2 ^ 86 }
    ensures { IsExtreme AtMost site.now arc Mark.Used (left_over site.now arc on_use on_load) result }
{
    let load = site.points()[arc.from as usize].kind.least_load();
    let mut least = None;
    for grade in 0..site.types().len() as u32 {
        least = lesser_with_type(site, arc, grade, load, on_use, on_load, least);
    }
    match least {
        Some(least) => least,
        // Some type bears the least load out of the start of a candidate arc.
        None => 0,
    }
}

/// The least, over the choices of an arc that its mark leaves, of what a choice leaves of its cost, over 2^20 of a cost unit: of 2^20 times the
/// cost, less `on_use` and `on_load` for each unit of the load, where the choice uses the arc, and of 0 where it doesn't. The arcs are those of
/// the site. It takes no memory.
pub fn least_choice(
    site: &Site,
    arcs: &Arcs,
    arc: u32,
    mark: Mark,
    on_use: i128,
    on_load: i128,
) -> i128
    requires arcs { AreArcs site.now arcs.now }
    requires arc { arc < length arcs.now }
    requires on_use { unsigned_abs on_use ≤ 2 ^ 86 }
    requires on_load { unsigned_abs on_load ≤ 2 ^ 86 }
    ensures least { (a : AnArc) → slice_get arcs.now arc ≡ Some a → IsExtreme AtMost site.now a mark (left_over site.now a on_use on_load) result }
    ensures small { unsigned_abs result ≤ 10 ^ 30 }
{
    // The points of a site come with the fact that it is valid, which bounds its costs.
    let _valid = site.points();
    let arc = arcs.get(arc);
    match mark {
        Mark::Unused => 0,
        Mark::Used => least_used(site, arc, on_use, on_load),
        Mark::Free => least_used(site, arc, on_use, on_load).min(0),
    }
}
