//! Local search over layouts of which each has one cable ended elsewhere than the one before.

ghost use Rattle.std.specs.Prelude.{◌≡◌, ℕ, ◌<◌, ◌≤◌, length, IfOk, IfNone, IfSome};
ghost use Rattle.cable_definitions.specs.Arcs.{AreArcs};
ghost use Rattle.cable_definitions.specs.Site.{IsValid};
ghost use Rattle.cable_definitions.specs.Layout.{KeepsRange, IsLegal, Starts, cost as cost_of_all};
ghost use Rattle.cable_definitions.specs.Part.{IsSettled};
ghost use Rattle.start_layout.specs.Moves.{MakesLegal, MakesNoneBelow, IsBestMove};
ghost use Rattle.start_layout.specs.Floors.{IsFloor};

use crate::circles::is_open;
use crate::floors::{Floor, is_dear, move_floor, no_floor};
use crate::types::with_end;
use candidate_cables::{Arc, Arcs};
use layout_meaning::{Layout, Outgoing, Verdict, judge};
use site_model::Site;
use std::alloc::{AllocError, Global};

/// A settled layout, which costs less than this one unless this one is settled; then it is the same. It is found by steepest descent: while
/// the cable out of some turbine or bend can be ended elsewhere, with the types of all cables chosen anew, so that the layout is legal and
/// costs less, that is done where it saves most. An error comes for want of memory alone.
pub fn improve_layout(
    alloc: Global,
    site: &Site,
    arcs: &Arcs,
    layout: &Layout,
) -> Result<Layout, AllocError>
    requires arcs { AreArcs site.now arcs.now }
    requires legal { IsLegal site.now layout.now }
    ensures settled { IfOk result (IsSettled site.now) }
    ensures same { IfOk result (λ better. IsSettled site.now layout.now → better ≡ layout.now) }
    ensures less { IfOk result (λ better. ¬ (IsSettled site.now layout.now) → cost_of_all site.now better < cost_of_all site.now layout.now) }
{
    let mut better = Layout::new(alloc)?;
    let mut trial = Layout::new(alloc)?;
    better.replace(layout.cables());
    settle(site, arcs, &mut better, &mut trial);
    Ok(better)
}

/// The cost of a legal layout, in cost units.
fn cost_of(site: &Site, layout: &Layout) -> u64
    requires { IsLegal site.now layout.now }
    ensures { result ≡ cost_of_all site.now layout.now }
{
    match judge(site, layout) {
        Verdict::Legal(cost) => cost,
        Verdict::Broken(rule, a, b) => unreachable!(),
    }
}

/// Goes from a layout to its cheapest neighbour while that costs less; `trial` is room for the neighbours.
fn settle(site: &Site, arcs: &Arcs, layout: &mut Layout, trial: &mut Layout)
    requires arcs { AreArcs site.now arcs.now }
    requires legal { IsLegal site.now layout.old }
    ensures settled { IsSettled site.now layout.new }
    ensures same { IsSettled site.now layout.old → layout.new ≡ layout.old }
    ensures less { ¬ (IsSettled site.now layout.old) → cost_of_all site.now layout.new < cost_of_all site.now layout.old }
{
    let mut cost = cost_of(site, layout);
    while let Some(arc) = best_move(site, arcs, &Outgoing::new(layout.cables()), cost, trial) {
        let _ = with_end(site, layout.cables(), arc, trial);
        layout.replace(trial.cables());
        cost = cost_of(site, layout);
    }
}

/// The cost, in cost units, of the layout with the arc's end and the cheapest types, which is then left in `trial`. None where that isn't legal
/// or costs no less than the bound; most often the floor at the arc's start tells.
fn cost_below(
    site: &Site,
    cables: &Outgoing,
    arc: Arc,
    floor: &Floor,
    bound: u64,
    trial: &mut Layout,
) -> Option<u64>
    requires valid { IsValid site.now }
    requires few { length cables.now ≤ 256 }
    requires range { (i : ℕ) → KeepsRange site.now cables.now i }
    requires from { arc.from < length site.now.points }
    requires to { arc.to < length site.now.points }
    requires starts { Starts cables.now arc.from }
    requires floor { IsFloor site.now cables.now floor.now }
    requires start { floor.now.start ≡ arc.from }
    ensures none { IfNone result (MakesNoneBelow site.now cables.now bound arc) }
    ensures some { IfSome result (MakesLegal site.now cables.now arc) }
    ensures below { IfSome result (λ cost. cost < bound) }
{
    if is_dear(site, cables, arc, floor, bound) {
        return None;
    }
    let cost = with_end(site, cables.cables(), arc, trial)?;
    if cost >= bound {
        return None;
    }
    match judge(site, trial) {
        Verdict::Broken(rule, a, b) => None,
        Verdict::Legal(_) => Some(cost),
    }
}

/// An arc whose end, as the new end of the cable out of its start, makes the cheapest neighbour of a legal layout of this cost. None exactly
/// where the layout is settled. `trial` is room for the neighbours.
fn best_move(
    site: &Site,
    arcs: &Arcs,
    cables: &Outgoing,
    cost: u64,
    trial: &mut Layout,
) -> Option<Arc>
    requires arcs { AreArcs site.now arcs.now }
    requires few { length cables.now ≤ 256 }
    requires legal { IsLegal site.now cables.now }
    requires cost { cost ≡ cost_of_all site.now cables.now }
    ensures none { IfNone result (IsSettled site.now cables.now) }
    ensures best { IfSome result (IsBestMove site.now arcs.now cables.now) }
{
    let _points = site.points();
    let mut least = cost;
    let mut best = None;
    let mut floor = no_floor();
    for number in 0..arcs.len() {
        let arc = arcs.get(number);
        move_floor(site, cables, arc.from, &mut floor, trial);
        if is_open(cables, arc) {
            if let Some(less) = cost_below(site, cables, arc, &floor, least, trial) {
                least = less;
                best = Some(arc);
            }
        }
    }
    best
}
