//! Loads and walks over the used arcs that no legal layout has.

ghost use Rattle.std.specs.Prelude.{ℕ, ◌↔◌, IsTrue, IfSome, IfNone};
ghost use Rattle.cable_definitions.specs.declared.row.Why.{Why as AReason};
ghost use Rattle.cable_definitions.specs.Walk.{load as load_of};
ghost use Rattle.node_reasons.specs.Reasons.{IsOverloaded, IsOverpowered, Returns, IsFlowReason};

use cable_definitions::row::Why;
use layout_meaning::{Cable, Flows, Outgoing, load};
use site_model::{Kind, Site};

/// The most steps of a walk: one for each point that a site may have.
const MOST_STEPS: u32 = 256;

/// Whether a load is more than any cable out of the point bears.
pub(crate) fn is_overloaded(site: &Site, p: u32, load: u32) -> bool
    ensures { IsTrue result ↔ IsOverloaded site.now p load }
{
    if p as usize >= site.points().len() {
        return false;
    }
    match site.kind(p) {
        Kind::Substation { .. } => false,
        Kind::Turbine { .. } => load > site.largest_capacity(),
        Kind::Bend => load > site.largest_capacity(),
    }
}

/// Whether a load is more than the substation at the point takes.
pub(crate) fn is_overpowered(site: &Site, p: u32, load: u32) -> bool
    ensures { IsTrue result ↔ IsOverpowered site.now p load }
{
    match site.kind(p) {
        Kind::Substation { feeders, power } => load > power,
        Kind::Turbine { .. } => false,
        Kind::Bend => false,
    }
}

/// Whether the walk from a point that starts a cable returns there.
pub(crate) fn returns(cables: &Outgoing, p: u32) -> bool
    ensures { IsTrue result ↔ Returns cables.now p }
{
    let mut at = p;
    for step in 0..MOST_STEPS {
        match cables.cable_out(at) {
            None => return false,
            Some(next) => at = next.to,
        }
        if at == p {
            return true;
        }
    }
    false
}

/// The start of a cable to which a walk returns.
fn find_loop(cables: &Outgoing) -> Option<u32>
    ensures some { IfSome result (Returns cables.now) }
    ensures none { IfNone result ((p : ℕ) → ¬ (Returns cables.now p)) }
{
    for cable in cables.cables() {
        if returns(cables, cable.from) {
            return Some(cable.from);
        }
    }
    None
}

/// A point whose cable can't bear its load.
fn find_overloaded(flows: &Flows) -> Option<u32>
    ensures some { IfSome result (λ p. IsOverloaded flows.now.site p (load_of flows.now.site flows.now.cables p)) }
    ensures none { IfNone result ((p : ℕ) → ¬ (IsOverloaded flows.now.site p (load_of flows.now.site flows.now.cables p))) }
{
    let site = flows.site();
    for p in 0..site.points().len() as u32 {
        if is_overloaded(site, p, flows.load(p)) {
            return Some(p);
        }
    }
    None
}

/// A substation that takes more than its power.
fn find_overpowered(flows: &Flows) -> Option<u32>
    ensures some { IfSome result (λ p. IsOverpowered flows.now.site p (load_of flows.now.site flows.now.cables p)) }
    ensures none { IfNone result ((p : ℕ) → ¬ (IsOverpowered flows.now.site p (load_of flows.now.site flows.now.cables p))) }
{
    let site = flows.site();
    for p in 0..site.points().len() as u32 {
        if is_overpowered(site, p, flows.load(p)) {
            return Some(p);
        }
    }
    None
}

/// Whether a reason of a load, a walk or a power is true of the cables; no other reason is.
pub(crate) fn is_flow_reason(site: &Site, cables: &[Cable], why: Why) -> bool
    ensures { IsTrue result ↔ IsFlowReason site.now cables.now why }
{
    match why {
        Why::Load(p) => is_overloaded(site, p, load(site, cables, p)),
        Why::Loop(p) => returns(&Outgoing::new(cables), p),
        Why::Power(p) => is_overpowered(site, p, load(site, cables, p)),
        Why::Row(row) => false,
        Why::Pair(a, b) => false,
        Why::Ceiling => false,
    }
}

/// A reason of a load, a walk or a power that is true of the cables.
pub(crate) fn find_flow_reason(site: &Site, cables: &[Cable]) -> Option<Why>
    ensures some { IfSome result (IsFlowReason site.now cables.now) }
    ensures none { IfNone result ((why : AReason) → ¬ (IsFlowReason site.now cables.now why)) }
{
    let outgoing = Outgoing::new(cables);
    if let Some(p) = find_loop(&outgoing) {
        return Some(Why::Loop(p));
    }
    let flows = Flows::new(site, outgoing);
    if let Some(p) = find_overloaded(&flows) {
        return Some(Why::Load(p));
    }
    if let Some(p) = find_overpowered(&flows) {
        return Some(Why::Power(p));
    }
    None
}
