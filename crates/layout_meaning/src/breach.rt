//! The first broken rule of a list of cables.

ghost use Rattle.std.specs.Prelude.{◌≤◌, ◌<◌, length, IfNone, IfSome};
ghost use Rattle.cable_definitions.specs.Layout.{rule_number};
ghost use Rattle.cable_definitions.specs.Part.{IsGrown, IsFirstBrokenOfPart};
ghost use Rattle.layout_meaning.specs.First.{KeepsBelow};

use crate::candidates::first_no_candidate;
use crate::clashes::first_clash;
use crate::counts::{first_branched, first_crowded};
use crate::ends::{first_lost, first_open_bend};
use crate::flows::Flows;
use crate::loads::{first_overloaded, first_overpowered};
use crate::numbers::{first_out_of_range, first_repeated_start};
use crate::outgoing::Outgoing;
use cable_definitions::cable::{Cable, Rule};
use site_model::Site;

/// A broken rule, with the two numbers that it names.
#[derive(Clone, Copy)]
pub(crate) struct Breach {
    pub(crate) rule: Rule,
    pub(crate) a: u32,
    pub(crate) b: u32,
}

/// The first breach of the rules on single cables: numbers of the site, candidate arcs, different starts.
pub(crate) fn breach_of_cables(site: &Site, cables: &[Cable]) -> Option<Breach>
    requires { length cables.now ≤ 256 }
    ensures none { IfNone result (KeepsBelow site.now cables.now 4) }
    ensures first { IfSome result (λ breach. IsFirstBrokenOfPart site.now cables.now breach.rule breach.a breach.b) }
    ensures early { IfSome result (λ breach. rule_number breach.rule < 4) }
{
    if let Some(i) = first_out_of_range(site, cables) {
        return Some(Breach {
            rule: Rule::Range,
            a: i,
            b: i,
        });
    }
    if let Some(cable) = first_no_candidate(site, cables) {
        return Some(Breach {
            rule: Rule::Candidate,
            a: cable.from,
            b: cable.to,
        });
    }
    if let Some(cable) = first_repeated_start(cables) {
        return Some(Breach {
            rule: Rule::Start,
            a: cable.from,
            b: cable.from,
        });
    }
    None
}

/// The first breach of the rules on walks and loads, where cables are candidates with different starts.
fn breach_of_walks(flows: &Flows) -> Option<Breach>
    requires kept { KeepsBelow flows.now.site flows.now.cables 4 }
    ensures none { IfNone result (KeepsBelow flows.now.site flows.now.cables 8) }
    ensures first { IfSome result (λ breach. IsFirstBrokenOfPart flows.now.site flows.now.cables breach.rule breach.a breach.b) }
{
    let site = flows.site();
    let outgoing = flows.outgoing();
    if let Some(p) = first_open_bend(site, outgoing) {
        return Some(Breach {
            rule: Rule::Bend,
            a: p,
            b: p,
        });
    }
    if let Some(p) = first_lost(site, outgoing) {
        return Some(Breach {
            rule: Rule::Lost,
            a: p,
            b: p,
        });
    }
    if let Some(cable) = first_overloaded(flows) {
        return Some(Breach {
            rule: Rule::Overload,
            a: cable.from,
            b: cable.to,
        });
    }
    None
}

/// The first breach of the rules on what meets: at substations, at turbines, and where cables clash.
fn breach_of_meetings(flows: &Flows) -> Option<Breach>
    requires count { length flows.now.cables ≤ 256 }
    requires kept { KeepsBelow flows.now.site flows.now.cables 8 }
    ensures none { IfNone result (KeepsBelow flows.now.site flows.now.cables 12) }
    ensures first { IfSome result (λ breach. IsFirstBrokenOfPart flows.now.site flows.now.cables breach.rule breach.a breach.b) }
{
    let site = flows.site();
    let outgoing = flows.outgoing();
    if let Some(p) = first_crowded(site, outgoing) {
        return Some(Breach {
            rule: Rule::Feeders,
            a: p,
            b: p,
        });
    }
    if let Some(p) = first_overpowered(flows) {
        return Some(Breach {
            rule: Rule::Power,
            a: p,
            b: p,
        });
    }
    if let Some(p) = first_branched(site, outgoing) {
        return Some(Breach {
            rule: Rule::Branch,
            a: p,
            b: p,
        });
    }
    if let Some((a, b)) = first_clash(site, outgoing) {
        return Some(Breach {
            rule: Rule::Clash,
            a,
            b,
        });
    }
    None
}

/// The first breach of the rules on what the cables join and carry.
pub(crate) fn breach_of_farm(flows: &Flows) -> Option<Breach>
    requires count { length flows.now.cables ≤ 256 }
    requires kept { KeepsBelow flows.now.site flows.now.cables 4 }
    ensures none { IfNone result (IsGrown flows.now.site flows.now.cables) }
    ensures first { IfSome result (λ breach. IsFirstBrokenOfPart flows.now.site flows.now.cables breach.rule breach.a breach.b) }
{
    if let Some(breach) = breach_of_walks(flows) {
        return Some(breach);
    }
    breach_of_meetings(flows)
}

/// The first breach of all rules but `Unjoined`; none exactly where the cables are a grown part. It takes no memory.
pub(crate) fn first_breach_of_part(site: &Site, cables: &[Cable]) -> Option<Breach>
    requires { length cables.now ≤ 256 }
    ensures none { IfNone result (IsGrown site.now cables.now) }
    ensures first { IfSome result (λ breach. IsFirstBrokenOfPart site.now cables.now breach.rule breach.a breach.b) }
{
    if let Some(breach) = breach_of_cables(site, cables) {
        return Some(breach);
    }
    breach_of_farm(&Flows::new(site, Outgoing::new(cables)))
}
