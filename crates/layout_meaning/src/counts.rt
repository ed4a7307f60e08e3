//! Substations and turbines in which too many cables end.

ghost use Rattle.std.specs.Prelude.{◌≡◌, ℕ, ◌≤◌, ◌<◌, IfNone, IfSome};
ghost use Rattle.cable_definitions.specs.Layout.{KeepsFeeders, KeepsString};
ghost use Rattle.cable_definitions.specs.declared.site.Mode.TheVariants.{Strings};
ghost use Rattle.layout_meaning.specs.First.{IsFirst};

use crate::ends::end_count;
use crate::outgoing::Outgoing;
use site_model::{Kind, Mode, Site};

/// The first substation in which more cables end than it has feeders.
pub(crate) fn first_crowded(site: &Site, cables: &Outgoing) -> Option<u32>
    ensures none { IfNone result ((p : ℕ) → KeepsFeeders site.now cables.now p) }
    ensures first { IfSome result (IsFirst (KeepsFeeders site.now cables.now)) }
{
    for p in 0..site.points().len() as u32 {
        if let Kind::Substation { feeders, power } = site.kind(p) {
            if end_count(cables, p) > feeders as usize {
                return Some(p);
            }
        }
    }
    None
}

/// The first turbine of a site in strings mode in which more than one cable ends.
pub(crate) fn first_branched(site: &Site, cables: &Outgoing) -> Option<u32>
    ensures none { IfNone result ((p : ℕ) → KeepsString site.now cables.now p) }
    ensures first { IfSome result (IsFirst (KeepsString site.now cables.now)) }
{
    match site.mode() {
        Mode::Tree => None,
        Mode::Strings => first_joint(site, cables),
    }
}

/// The first turbine in which more than one cable ends.
fn first_joint(site: &Site, cables: &Outgoing) -> Option<u32>
    requires { site.now.mode ≡ Strings }
    ensures none { IfNone result ((p : ℕ) → KeepsString site.now cables.now p) }
    ensures first { IfSome result (IsFirst (KeepsString site.now cables.now)) }
{
    for p in 0..site.points().len() as u32 {
        if site.kind(p).is_turbine() {
            if end_count(cables, p) > 1 {
                return Some(p);
            }
        }
    }
    None
}
