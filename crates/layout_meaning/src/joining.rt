//! One more cable of a grown part.

ghost use Rattle.std.specs.Prelude.{ℕ, ◌≤◌, ◌<◌, ◌↔◌, IsTrue, length};
ghost use Rattle.cable_definitions.specs.Arcs.{kind_of, is_turbine};
ghost use Rattle.cable_definitions.specs.Layout.{Starts};
ghost use Rattle.cable_definitions.specs.Part.{IsGrown, IsTarget, AreCheapTyped};
ghost use Rattle.layout_laws.specs.Typable.{extended_by};
ghost use Rattle.layout_meaning.specs.Joining.{IsUnjoined, IsJoining};
ghost use Rattle.layout_meaning.specs.Typed.{JoinPoints};

use crate::breach::first_breach_of_part;
use crate::outgoing::Outgoing;
use crate::typing::{CableList, with_cheapest_types};
use cable_definitions::cable::{Cable, Rule};
use site_model::{Kind, Site};

/// Why an arc can't be added to a grown part: the first of these that holds.
#[derive(Clone, Copy, Debug, PartialEq, Eq, thiserror::Error)]
pub enum JoinFault {
    /// Its start is no turbine, or is joined already.
    #[error("no turbine stands at the start, or a cable starts there already")]
    Joined,
    /// Its end is neither a joined turbine nor a substation.
    #[error("the end is neither a joined turbine nor a substation")]
    Target,
    /// It is no candidate arc.
    #[error("no candidate arc leads from the start to the end")]
    Candidate,
    /// The cables would break a rule other than `Unjoined` whatever their types: the first rule, with its two numbers, that they break when
    /// each has its cheapest type, or type 0 where no type bears its load.
    #[error("the cables would break the rule {0:?} at {1} and {2}")]
    Breaks(Rule, u32, u32),
}

/// Whether a point is a turbine that starts a cable.
pub(crate) fn is_joined(site: &Site, part: &Outgoing, p: u32) -> bool
    ensures { IsTrue result ↔ (IsTrue (is_turbine (kind_of site.now p)) × Starts part.now p) }
{
    if !site.kind(p).is_turbine() {
        return false;
    }
    part.starts(p)
}

/// Whether a point is a turbine that starts no cable.
pub(crate) fn is_unjoined(site: &Site, part: &Outgoing, p: u32) -> bool
    ensures { IsTrue result ↔ IsUnjoined site.now part.now p }
{
    if !site.kind(p).is_turbine() {
        return false;
    }
    !part.starts(p)
}

/// Whether a point is a joined turbine or a substation.
fn is_target(site: &Site, part: &Outgoing, p: u32) -> bool
    ensures { IsTrue result ↔ IsTarget site.now part.now p }
{
    match site.points().get(p as usize) {
        None => false,
        Some(point) => match point.kind {
            Kind::Turbine { power } => part.starts(p),
            Kind::Substation { feeders, power } => true,
            Kind::Bend => false,
        },
    }
}

/// A part and one more cable, all with their cheapest types.
fn grown_by(site: &Site, part: &[Cable], from: u32, to: u32) -> CableList
    requires few { length part.now < 256 }
    requires points { JoinPoints site.now part.now }
    requires from { from < length site.now.points }
    requires to { to < length site.now.points }
    ensures { AreCheapTyped site.now (extended_by part.now from to) result }
{
    let mut cables = CableList::new();
    for cable in part {
        cables.push(*cable);
    }
    cables.push(Cable { from, to, grade: 0 });
    with_cheapest_types(site, cables.as_slice())
}

/// A grown part and one more arc, all with their cheapest types. It takes no memory.
pub(crate) fn joining(
    site: &Site,
    part: &[Cable],
    from: u32,
    to: u32,
) -> Result<CableList, JoinFault>
    requires few { length part.now ≤ 256 }
    requires grown { IsGrown site.now part.now }
    ensures { IsJoining site.now part.now from to result }
{
    let _valid = site.points();
    let outgoing = Outgoing::new(part);
    if !is_unjoined(site, &outgoing, from) {
        return Err(JoinFault::Joined);
    }
    if !is_target(site, &outgoing, to) {
        return Err(JoinFault::Target);
    }
    if !site.is_candidate(from, to) {
        return Err(JoinFault::Candidate);
    }
    let typed = grown_by(site, part, from, to);
    match first_breach_of_part(site, typed.as_slice()) {
        Some(breach) => Err(JoinFault::Breaks(breach.rule, breach.a, breach.b)),
        None => Ok(typed),
    }
}
