//! Turbines without a cable, open bends, and walks that end in no substation.

ghost use Rattle.std.specs.Prelude.{◌≡◌, ℕ, ◌<◌, ◌≤◌, length, IfNone, IfSome};
ghost use Rattle.cable_definitions.specs.Layout.{KeepsRange, KeepsJoined, KeepsBend, KeepsEnd};
ghost use Rattle.cable_definitions.specs.Walk.{starts_in, ends_in};
ghost use Rattle.layout_meaning.specs.First.{IsFirst};

use crate::outgoing::Outgoing;
use crate::walks::walk_end;
use site_model::Site;

/// The first turbine that starts no cable.
pub(crate) fn first_unjoined(site: &Site, cables: &Outgoing) -> Option<u32>
    ensures none { IfNone result ((p : ℕ) → KeepsJoined site.now cables.now p) }
    ensures first { IfSome result (IsFirst (KeepsJoined site.now cables.now)) }
{
    for p in 0..site.points().len() as u32 {
        if site.kind(p).is_turbine() {
            if !cables.starts(p) {
                return Some(p);
            }
        }
    }
    None
}

/// How many cables start in a point.
fn start_count(cables: &Outgoing, p: u32) -> usize
    ensures { result ≡ starts_in cables.now p }
{
    cables
        .cables()
        .iter()
        .filter(|cable| cable.from == p)
        .count()
}

/// How many cables end in a point.
pub(crate) fn end_count(cables: &Outgoing, p: u32) -> usize
    ensures { result ≡ ends_in cables.now p }
{
    cables.cables().iter().filter(|cable| cable.to == p).count()
}

/// The first bend that starts another number of cables than end there, or more than one.
pub(crate) fn first_open_bend(site: &Site, cables: &Outgoing) -> Option<u32>
    ensures none { IfNone result ((p : ℕ) → KeepsBend site.now cables.now p) }
    ensures first { IfSome result (IsFirst (KeepsBend site.now cables.now)) }
{
    for p in 0..site.points().len() as u32 {
        if site.kind(p).is_bend() {
            let starting = start_count(cables, p);
            if starting > 1 {
                return Some(p);
            }
            if starting != end_count(cables, p) {
                return Some(p);
            }
        }
    }
    None
}

/// The first start of a cable whose walk doesn't end in a substation.
pub(crate) fn first_lost(site: &Site, cables: &Outgoing) -> Option<u32>
    requires range { (i : ℕ) → KeepsRange site.now cables.now i }
    ensures none { IfNone result ((p : ℕ) → KeepsEnd site.now cables.now p) }
    ensures first { IfSome result (IsFirst (KeepsEnd site.now cables.now)) }
{
    for p in 0..site.points().len() as u32 {
        if cables.starts(p) {
            if !site.kind(walk_end(cables, p)).is_substation() {
                return Some(p);
            }
        }
    }
    None
}
