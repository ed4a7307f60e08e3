//! Whether no legal layout has both of two arcs.

ghost use Rattle.std.specs.Prelude.{◌≡◌, ◌↔◌, IsTrue};
ghost use Rattle.cable_definitions.specs.Row.{AreIncompatible};
ghost use Rattle.candidate_cables.specs.Listing.{JoinsPoints};

use cable_definitions::cable::Arc;
use site_model::Site;

/// Whether one arc goes from the other's end to its start.
fn is_reverse(first: Arc, second: Arc) -> bool
    ensures { IsTrue result ↔ ((first.from ≡ second.to) × (first.to ≡ second.from)) }
{
    if first.from != second.to {
        return false;
    }
    first.to == second.from
}

/// Whether two different arcs clash, have the same start, or are each other's reverse.
pub(crate) fn are_incompatible(site: &Site, first: Arc, second: Arc) -> bool
    requires first { JoinsPoints site.now first }
    requires second { JoinsPoints site.now second }
    ensures { IsTrue result ↔ AreIncompatible site.now first second }
{
    if first.from == second.from {
        return first.to != second.to;
    }
    if is_reverse(first, second) {
        return true;
    }
    site.pairs_clash(first.from, first.to, second.from, second.to)
}
