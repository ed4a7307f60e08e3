//! Cables that clash.

ghost use Rattle.std.specs.Prelude.{◌≡◌, ℕ, ◌<◌, Some, length, IfNone, IfSome};
ghost use Rattle.cable_definitions.specs.Layout.{KeepsRange, KeepsStart, KeepsClear};
ghost use Rattle.cable_definitions.specs.Walk.{cable_out as cable_out_of};
ghost use Rattle.layout_meaning.specs.First.{IsFirst, IsFirstPair};
ghost use Rattle.layout_meaning.specs.Numbers.{AreNumbers};

use crate::outgoing::Outgoing;
use cable_definitions::cable::Cable;
use site_model::Site;

/// The first start above that of a cable out of which comes a cable that clashes with it.
fn first_clash_with(site: &Site, cables: &Outgoing, first: Cable) -> Option<u32>
    requires range { (i : ℕ) → KeepsRange site.now cables.now i }
    requires start { (i : ℕ) → KeepsStart cables.now i }
    requires out { cable_out_of cables.now first.from ≡ Some first }
    requires numbers { AreNumbers site.now first }
    ensures none { IfNone result ((b : ℕ) → KeepsClear site.now cables.now first.from b) }
    ensures first { IfSome result (IsFirst (KeepsClear site.now cables.now first.from)) }
{
    let count = site.points().len();
    for b in first.from + 1..count as u32 {
        if let Some(second) = cables.cable_out(b) {
            if site.pairs_clash(first.from, first.to, second.from, second.to) {
                return Some(b);
            }
        }
    }
    None
}

/// The first two starts, the lower one first, of cables that clash.
pub(crate) fn first_clash(site: &Site, cables: &Outgoing) -> Option<(u32, u32)>
    requires range { (i : ℕ) → KeepsRange site.now cables.now i }
    requires start { (i : ℕ) → KeepsStart cables.now i }
    ensures none { IfNone result ((a b : ℕ) → KeepsClear site.now cables.now a b) }
    ensures first { IfSome result (λ pair. IsFirstPair (KeepsClear site.now cables.now) pair.0 pair.1) }
{
    let count = site.points().len();
    for a in 0..count as u32 {
        if let Some(first) = cables.cable_out(a) {
            if let Some(b) = first_clash_with(site, cables, first) {
                return Some((a, b));
            }
        }
    }
    None
}
