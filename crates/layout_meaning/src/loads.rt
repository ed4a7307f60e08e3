//! Cables and substations that carry too much.

ghost use Rattle.std.specs.Prelude.{ℕ, ◌≤◌, length, IfNone, IfSome};
ghost use Rattle.cable_definitions.specs.Layout.{KeepsRange, KeepsStart, KeepsCapacity, KeepsPower};
ghost use Rattle.layout_meaning.specs.First.{IsFirst, IsFirstStart};

use crate::flows::Flows;
use cable_definitions::cable::Cable;
use site_model::Kind;

/// The first cable, in order of starts, that carries more than its type bears.
pub(crate) fn first_overloaded(flows: &Flows) -> Option<Cable>
    requires range { (i : ℕ) → KeepsRange flows.now.site flows.now.cables i }
    requires start { (i : ℕ) → KeepsStart flows.now.cables i }
    ensures none { IfNone result ((p : ℕ) → KeepsCapacity flows.now.site flows.now.cables p) }
    ensures first { IfSome result (IsFirstStart (KeepsCapacity flows.now.site flows.now.cables) flows.now.cables) }
{
    let site = flows.site();
    let outgoing = flows.outgoing();
    for p in 0..site.points().len() as u32 {
        if let Some(cable) = outgoing.cable_out(p) {
            if flows.load(p) > site.capacity(cable.grade) {
                return Some(cable);
            }
        }
    }
    None
}

/// The first substation into which more load flows than its power.
pub(crate) fn first_overpowered(flows: &Flows) -> Option<u32>
    requires count { length flows.now.cables ≤ 256 }
    requires range { (i : ℕ) → KeepsRange flows.now.site flows.now.cables i }
    ensures none { IfNone result ((p : ℕ) → KeepsPower flows.now.site flows.now.cables p) }
    ensures first { IfSome result (IsFirst (KeepsPower flows.now.site flows.now.cables)) }
{
    let site = flows.site();
    for p in 0..site.points().len() as u32 {
        if let Kind::Substation { feeders, power } = site.kind(p) {
            if flows.load_into(p) > power {
                return Some(p);
            }
        }
    }
    None
}
