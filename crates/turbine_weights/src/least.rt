//! The least cost of the arcs out of a turbine that a node leaves.

ghost use Rattle.std.specs.Prelude.{◌≡◌, ◌≢◌, ℕ, ◌≤◌, ◌<◌, length, slice_get, Some, IfSome, IfNone};
ghost use Rattle.cable_definitions.specs.declared.cable.Arc.{Arc as AnArc};
ghost use Rattle.cable_definitions.specs.declared.row.Mark.TheVariants.{Unused};
ghost use Rattle.cable_definitions.specs.Arcs.{AreArcs};
ghost use Rattle.site_model.specs.Best.{most_cost};
ghost use Rattle.turbine_weights.specs.Turbines.{IsLeft, IsLeastLeft};
ghost use Rattle.candidate_cables.specs.OwnCosts.{IsOwnCost};
ghost use Rattle.turbine_weights.specs.Least.{lesser_cost as lesser_of};

use candidate_cables::{Arcs, own_cost};
use node_works::{Decisions, Mark};
use site_model::Site;

/// The least cost of an arc under the types that bear the power of its start, with that power as load. None where it is marked unused.
fn cost_left(site: &Site, arcs: &Arcs, decisions: &Decisions, number: u32) -> Option<u64>
    requires arcs { AreArcs site.now arcs.now }
    requires marks { length decisions.now ≡ length arcs.now }
    requires number { number < length arcs.now }
    ensures none { IfNone result (slice_get decisions.now number ≡ Some Unused) }
    ensures left { IfSome result (λ cost. slice_get decisions.now number ≢ Some Unused) }
    ensures cost { IfSome result (λ cost. (a : AnArc) → slice_get arcs.now number ≡ Some a → IsOwnCost site.now a cost) }
    ensures small { IfSome result (λ cost. cost ≤ most_cost) }
{
    if let Mark::Unused = decisions.mark(number) {
        return None;
    }
    Some(own_cost(site, arcs, number))
}

/// The lesser of two costs, of which each may be missing.
fn lesser(a: Option<u64>, b: Option<u64>) -> Option<u64>
    ensures { result ≡ lesser_of a b }
{
    match (a, b) {
        (None, b) => b,
        (a, None) => a,
        (Some(a), Some(b)) => Some(a.min(b)),
    }
}

/// The least cost of an arc out of a point that isn't marked unused, with the point's own power as load. None exactly where there is no such
/// arc. The arcs are those of the site, with one mark each.
fn least_left(site: &Site, arcs: &Arcs, decisions: &Decisions, p: u32) -> Option<u64>
    requires arcs { AreArcs site.now arcs.now }
    requires marks { length decisions.now ≡ length arcs.now }
    ensures none { IfNone result ((a : ℕ) (arc : AnArc) → ¬ (IsLeft arcs.now decisions.now p a arc)) }
    ensures least { IfSome result (IsLeastLeft site.now arcs.now decisions.now p) }
    ensures small { IfSome result (λ cost. cost ≤ most_cost) }
{
    let (first, past) = arcs.out_of(p);
    let mut least = None;
    for number in first..past {
        least = lesser(least, cost_left(site, arcs, decisions, number));
    }
    least
}

/// The least cost of such an arc, where it isn't 0. None where there is no such arc or where one costs nothing.
pub(crate) fn least_due(site: &Site, arcs: &Arcs, decisions: &Decisions, p: u32) -> Option<u64>
    requires arcs { AreArcs site.now arcs.now }
    requires marks { length decisions.now ≡ length arcs.now }
    ensures none { IfNone result ((cost : ℕ) → IsLeastLeft site.now arcs.now decisions.now p cost → cost ≡ 0) }
    ensures least { IfSome result (IsLeastLeft site.now arcs.now decisions.now p) }
    ensures some { IfSome result (λ cost. cost ≢ 0) }
    ensures small { IfSome result (λ cost. cost ≤ most_cost) }
{
    match least_left(site, arcs, decisions, p) {
        Some(0) => None,
        least => least,
    }
}
