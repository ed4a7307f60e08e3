//! Blocked turbines of grown parts.

ghost use Rattle.std.specs.Prelude.{ℕ, List, ◌≤◌, ◌<◌, ◌↔◌, IsTrue, length};
ghost use Rattle.cable_definitions.specs.declared.cable.Cable.{Cable as ACable};
ghost use Rattle.cable_definitions.specs.Part.{IsGrown, IsBlocked};
ghost use Rattle.layout_meaning.specs.Joining.{Joins, CanJoin};

use crate::breach::first_breach_of_part;
use crate::joining::{is_unjoined, joining};
use crate::layout::Layout;
use crate::outgoing::Outgoing;
use cable_definitions::cable::Cable;
use site_model::Site;

/// Whether an arc can be added to a grown part.
fn can_add(site: &Site, part: &[Cable], from: u32, to: u32) -> bool
    requires few { length part.now ≤ 256 }
    requires grown { IsGrown site.now part.now }
    ensures { IsTrue result ↔ ((typed : List ACable) × Joins site.now part.now from to typed) }
{
    joining(site, part, from, to).is_ok()
}

/// Whether some arc from a point can be added to a grown part.
fn can_join(site: &Site, part: &[Cable], from: u32) -> bool
    requires few { length part.now ≤ 256 }
    requires grown { IsGrown site.now part.now }
    ensures { IsTrue result ↔ CanJoin site.now part.now from }
{
    let count = site.points().len();
    for to in 0..count as u32 {
        if can_add(site, part, from, to) {
            return true;
        }
    }
    false
}

/// Whether `part` is a grown part of the site that doesn't join `turbine`, a turbine of the site, and no candidate arc from there to a joined
/// turbine or to a substation makes a grown part when it is added, whatever types all cables are given. It takes no memory.
pub fn part_blocked(site: &Site, part: &Layout, turbine: u32) -> bool
    ensures { IsTrue result ↔ IsBlocked site.now part.now turbine }
{
    let cables = part.cables();
    if first_breach_of_part(site, cables).is_some() {
        return false;
    }
    if !is_unjoined(site, &Outgoing::new(cables), turbine) {
        return false;
    }
    !can_join(site, cables, turbine)
}
