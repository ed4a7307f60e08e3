//! What a layout costs at least where the cable out of one point ends elsewhere.

ghost use Rattle.std.specs.Prelude.{◌≡◌, ℕ, ◌<◌, ◌≤◌, List, length, IsTrue};
ghost use Rattle.cable_definitions.specs.declared.cable.Cable.{Cable as ACable};
ghost use Rattle.cable_definitions.specs.Site.{Site as ASite, IsValid};
ghost use Rattle.cable_definitions.specs.Layout.{KeepsRange, Starts};
ghost use Rattle.start_layout.specs.Moves.{MakesNoneBelow};
ghost use Rattle.start_layout.specs.Floors.{without, IsLeastCost, AreOthersAbove, AreLeasts, IsFloor};

use crate::circles::MOST_STEPS;
use candidate_cables::Arc;
use layout_meaning::{Cable, Flows, Layout, Outgoing};
use site_model::Site;

/// What each legal layout costs at least that differs from a list of cables in where the cable out of one point ends. What is known of single
/// cables stands at the numbers of their starts.
#[derive(Clone, Copy)]
pub(crate) struct Floor {
    /// The point.
    pub(crate) start: u32,
    /// What the other cables cost at least, in cost units.
    pub(crate) others: u64,
    /// What each of them costs at least, in cost units.
    pub(crate) leasts: [u64; 256],
    /// What each of them bears at least, in power units.
    pub(crate) loads: [u32; 256],
    /// What the cable out of the point bears at least, in power units.
    pub(crate) load: u32,
}

/// Replaces the cables of `into` by these but those out of a point.
fn leave_out(cables: &[Cable], start: u32, into: &mut Layout)
    requires { length cables.now ≤ 256 }
    ensures { into.new ≡ without start cables.now }
{
    into.clear();
    for cable in cables {
        if cable.from != start {
            let _ = into.push(*cable);
        }
    }
}

/// What a cable that bears this load or more costs at least, in cost units: what it costs at this load, or the greatest cost where no type bears
/// it.
fn least_cost(site: &Site, from: u32, to: u32, load: u32) -> u64
    requires from { from < length site.now.points }
    requires to { to < length site.now.points }
    ensures { IsLeastCost site.now from to load result }
{
    match site.cheapest(from, to, load) {
        None => u64::MAX,
        Some((grade, cost)) => cost,
    }
}

/// What each cable but that out of a point costs at least, in cost units, from the others with their loads without that one.
fn least_costs(site: &Site, cables: &Outgoing, start: u32, others: &Flows) -> [u64; 256]
    requires range { (i : ℕ) → KeepsRange site.now cables.now i }
    requires others { others.now ≡ record { site = site.now; cables = without start cables.now } }
    ensures { (q : ℕ) → AreLeasts site.now cables.now start q result }
{
    let mut leasts = [0; 256];
    for p in 0..site.points().len() as u32 {
        if p != start {
            if let Some(cable) = cables.cable_out(p) {
                leasts[p as usize] = least_cost(site, p, cable.to, others.load(p));
            }
        }
    }
    leasts
}

/// What all cables but those out of a point cost at least, in cost units, from what each does.
fn others_cost(site: &Site, cables: &[Cable], start: u32, leasts: &[u64; 256]) -> u64
    requires valid { IsValid site.now }
    requires range { (i : ℕ) → KeepsRange site.now cables.now i }
    ensures { (q : ℕ) → AreLeasts site.now cables.now start q leasts.now → AreOthersAbove site.now cables.now start q (length cables.now) result }
{
    let mut total: u64 = 0;
    for cable in cables {
        if cable.from != start {
            total = total.saturating_add(leasts[cable.from as usize]);
        }
    }
    total
}

/// The floor of nothing, at no point.
pub(crate) fn no_floor() -> Floor
    ensures { (s : ASite) (cables : List ACable) → IsFloor s cables result }
{
    Floor {
        start: u32::MAX,
        others: 0,
        leasts: [0; 256],
        loads: [0; 256],
        load: 0,
    }
}

/// The floor at a point, from the loads of the cables but that out of the point; `trial` is room for them.
fn floor_at(site: &Site, cables: &Outgoing, start: u32, trial: &mut Layout) -> Floor
    requires few { length cables.now ≤ 256 }
    requires range { (i : ℕ) → KeepsRange site.now cables.now i }
    requires start { start < length site.now.points }
    ensures floor { IsFloor site.now cables.now result }
    ensures start { result.start ≡ start }
{
    leave_out(cables.cables(), start, trial);
    let flows = Flows::new(site, Outgoing::new(trial.cables()));
    let leasts = least_costs(site, cables, start, &flows);
    let others = others_cost(site, cables.cables(), start, &leasts);
    let load = flows.load(start);
    Floor {
        start,
        others,
        leasts,
        loads: flows.into_loads(),
        load,
    }
}

/// Replaces a floor by that at a point, unless it is that one; `trial` is room for cables.
pub(crate) fn move_floor(
    site: &Site,
    cables: &Outgoing,
    start: u32,
    floor: &mut Floor,
    trial: &mut Layout,
)
    requires few { length cables.now ≤ 256 }
    requires range { (i : ℕ) → KeepsRange site.now cables.now i }
    requires start { start < length site.now.points }
    requires floor { IsFloor site.now cables.now floor.old }
    ensures floor { IsFloor site.now cables.now floor.new }
    ensures start { floor.new.start ≡ start }
{
    if floor.start != start {
        *floor = floor_at(site, cables, start, trial);
    }
}

/// What each cable but that out of the arc's start costs at least, in cost units, where that one ends where the arc ends: the cables on the walk
/// from there bear its load besides their own.
fn leasts_on_way(site: &Site, cables: &Outgoing, arc: Arc, floor: &Floor) -> [u64; 256]
    requires valid { IsValid site.now }
    requires range { (i : ℕ) → KeepsRange site.now cables.now i }
    requires to { arc.to < length site.now.points }
    requires starts { Starts cables.now arc.from }
    requires floor { IsFloor site.now cables.now floor.now }
    requires start { floor.now.start ≡ arc.from }
    ensures { AreLeasts site.now cables.now arc.from arc.to result }
{
    let mut leasts = floor.leasts;
    let mut at = arc.to;
    for step in 0..MOST_STEPS {
        if at == arc.from {
            return leasts;
        }
        match cables.cable_out(at) {
            None => return leasts,
            Some(cable) => {
                let load = floor.loads[at as usize].saturating_add(floor.load);
                leasts[at as usize] = least_cost(site, at, cable.to, load);
                at = cable.to;
            }
        }
    }
    leasts
}

/// Whether no legal layout that costs less than a bound is made where the cable out of the arc's start ends where the arc ends: most often what
/// the other cables cost without that one tells, and nearly always what they cost with it.
pub(crate) fn is_dear(site: &Site, cables: &Outgoing, arc: Arc, floor: &Floor, bound: u64) -> bool
    requires valid { IsValid site.now }
    requires range { (i : ℕ) → KeepsRange site.now cables.now i }
    requires from { arc.from < length site.now.points }
    requires to { arc.to < length site.now.points }
    requires starts { Starts cables.now arc.from }
    requires floor { IsFloor site.now cables.now floor.now }
    requires start { floor.now.start ≡ arc.from }
    ensures { IsTrue result → MakesNoneBelow site.now cables.now bound arc }
{
    let price = least_cost(site, arc.from, arc.to, floor.load);
    if floor.others.saturating_add(price) >= bound {
        return true;
    }
    let leasts = leasts_on_way(site, cables, arc, floor);
    let others = others_cost(site, cables.cables(), arc.from, &leasts);
    others.saturating_add(price) >= bound
}
