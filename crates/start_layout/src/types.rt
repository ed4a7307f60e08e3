//! A layout with one cable ended elsewhere, and the cheapest types that then bear the loads.

ghost use Rattle.std.specs.Prelude.{◌≡◌, ℕ, ◌<◌, ◌≤◌, length, IfSome, IfNone};
ghost use Rattle.cable_definitions.specs.Layout.{KeepsRange, IsLegal, cost as cost_of_all};
ghost use Rattle.cable_definitions.specs.Part.{AreCheapTyped};
ghost use Rattle.layout_meaning.specs.Typed.{JoinPoints};
ghost use Rattle.start_layout.specs.Moves.{re_ended as re_ended_by, with_end as with_end_of};

use candidate_cables::Arc;
use layout_meaning::{Cable, CableList, Flows, Layout, Outgoing, cheapest_types};
use site_model::Site;

/// The cable, which ends where the arc ends if it starts where the arc starts.
fn re_ended(cable: Cable, arc: Arc) -> Cable
    ensures { result ≡ re_ended_by arc.from arc.to cable }
{
    if cable.from == arc.from {
        return Cable {
            to: arc.to,
            ..cable
        };
    }
    cable
}

/// The cables, of which the one that starts where the arc starts ends where the arc ends.
fn re_end(cables: &[Cable], arc: Arc) -> CableList
    requires { length cables.now ≤ 256 }
    ensures { result ≡ with_end_of cables.now arc.from arc.to }
{
    let mut ended = CableList::new();
    for cable in cables {
        ended.push(re_ended(*cable, arc));
    }
    ended
}

/// What these cables with their cheapest types cost at their loads, in cost units. None only where the type of some cable doesn't bear its load,
/// so that they aren't legal.
fn cost_of_typed(flows: &Flows, typed: &[Cable]) -> Option<u64>
    requires few { length typed.now ≤ 256 }
    requires points { JoinPoints flows.now.site flows.now.cables }
    requires typed { AreCheapTyped flows.now.site flows.now.cables typed.now }
    ensures cost { IfSome result (λ cost. cost ≡ cost_of_all flows.now.site typed.now) }
    ensures none { IfNone result (¬ (IsLegal flows.now.site typed.now)) }
{
    let site = flows.site();
    let mut total: u64 = 0;
    for cable in typed {
        let carried = flows.load(cable.from);
        if carried > site.capacity(cable.grade) {
            return None;
        }
        total += site.arc_cost(cable.from, cable.to, cable.grade, carried);
    }
    Some(total)
}

/// Replaces the cables of `into` by these, of which the one that starts where the arc starts ends where the arc ends, and gives each the
/// cheapest type that bears its load, or type 0 where no type does. What they cost then, in cost units, is handed back; None only where they
/// aren't legal. It takes no memory.
pub(crate) fn with_end(site: &Site, cables: &[Cable], arc: Arc, into: &mut Layout) -> Option<u64>
    requires few { length cables.now ≤ 256 }
    requires range { (i : ℕ) → KeepsRange site.now cables.now i }
    requires to { arc.to < length site.now.points }
    ensures typed { AreCheapTyped site.now (with_end_of cables.now arc.from arc.to) into.new }
    ensures cost { IfSome result (λ cost. cost ≡ cost_of_all site.now into.new) }
    ensures none { IfNone result (¬ (IsLegal site.now into.new)) }
{
    let ended = re_end(cables, arc);
    let flows = Flows::new(site, Outgoing::new(ended.as_slice()));
    let typed = cheapest_types(&flows);
    let typed = typed.as_slice();
    into.replace(typed);
    cost_of_typed(&flows, typed)
}
