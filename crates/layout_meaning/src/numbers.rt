//! Numbers of the site, and starts that come again.

ghost use Rattle.std.specs.Prelude.{ℕ, ◌<◌, ◌≤◌, ◌↔◌, IsTrue, length, IfNone, IfSome};
ghost use Rattle.cable_definitions.specs.Layout.{KeepsRange, KeepsStart};
ghost use Rattle.layout_meaning.specs.First.{IsFirst, IsFirstCable};
ghost use Rattle.layout_meaning.specs.Numbers.{AreNumbers, IsEarlierStart};

use cable_definitions::cable::Cable;
use site_model::Site;

/// Whether the start, the end and the type of a cable are of the site.
fn has_numbers_of(site: &Site, cable: Cable) -> bool
    ensures { IsTrue result ↔ AreNumbers site.now cable }
{
    let points = site.points().len();
    let types = site.types().len();
    if (cable.from as usize) >= points {
        return false;
    }
    if (cable.to as usize) >= points {
        return false;
    }
    (cable.grade as usize) < types
}

/// The place of the first cable of which a number isn't of the site.
pub(crate) fn first_out_of_range(site: &Site, cables: &[Cable]) -> Option<u32>
    requires { length cables.now ≤ 256 }
    ensures none { IfNone result ((i : ℕ) → KeepsRange site.now cables.now i) }
    ensures first { IfSome result (IsFirst (KeepsRange site.now cables.now)) }
{
    for (place, cable) in cables.iter().enumerate() {
        if !has_numbers_of(site, *cable) {
            return Some(place as u32);
        }
    }
    None
}

/// Whether one of the first so many cables starts in a point.
fn has_earlier_start(cables: &[Cable], count: usize, p: u32) -> bool
    requires { count ≤ length cables.now }
    ensures { IsTrue result ↔ IsEarlierStart cables.now count p }
{
    for j in 0..count {
        if cables[j].from == p {
            return true;
        }
    }
    false
}

/// The first cable that has the start of an earlier one.
pub(crate) fn first_repeated_start(cables: &[Cable]) -> Option<Cable>
    requires { length cables.now ≤ 256 }
    ensures none { IfNone result ((i : ℕ) → KeepsStart cables.now i) }
    ensures first { IfSome result (IsFirstCable (KeepsStart cables.now) cables.now) }
{
    for i in 0..cables.len() {
        let cable = cables[i];
        if has_earlier_start(cables, i, cable.from) {
            return Some(cable);
        }
    }
    None
}
