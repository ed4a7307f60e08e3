//! Cables that are no candidate arcs.

ghost use Rattle.std.specs.Prelude.{ℕ, ◌<◌, ◌≤◌, length, IfNone, IfSome};
ghost use Rattle.cable_definitions.specs.Layout.{KeepsRange, KeepsCandidate};
ghost use Rattle.layout_meaning.specs.First.{IsFirstCable};

use cable_definitions::cable::Cable;
use site_model::Site;

/// The first cable that is no candidate arc.
pub(crate) fn first_no_candidate(site: &Site, cables: &[Cable]) -> Option<Cable>
    requires { (i : ℕ) → KeepsRange site.now cables.now i }
    ensures none { IfNone result ((i : ℕ) → KeepsCandidate site.now cables.now i) }
    ensures first { IfSome result (IsFirstCable (KeepsCandidate site.now cables.now) cables.now) }
{
    for i in 0..cables.len() {
        let cable = cables[i];
        if !site.is_candidate(cable.from, cable.to) {
            return Some(cable);
        }
    }
    None
}
