//! Which cables can be ended where without a circle.

ghost use Rattle.std.specs.Prelude.{◌≡◌, ◌↔◌, IsTrue};
ghost use Rattle.cable_definitions.specs.Walk.{passes};
ghost use Rattle.cable_definitions.specs.Layout.{Starts};

use candidate_cables::Arc;
use layout_meaning::Outgoing;

/// The most steps of a walk: one for each point that a site may have.
pub(crate) const MOST_STEPS: u32 = 256;

/// Whether the walk from an arc's end passes its start.
fn leads_back(cables: &Outgoing, arc: Arc) -> bool
    ensures { result ≡ passes cables.now arc.from arc.to }
{
    let mut at = arc.to;
    for step in 0..MOST_STEPS {
        if at == arc.from {
            return true;
        }
        match cables.cable_out(at) {
            None => return false,
            Some(cable) => at = cable.to,
        }
    }
    at == arc.from
}

/// Whether a cable starts where the arc starts, which can end where the arc ends without closing a circle.
pub(crate) fn is_open(cables: &Outgoing, arc: Arc) -> bool
    ensures { IsTrue result ↔ (Starts cables.now arc.from × (¬ (IsTrue (passes cables.now arc.from arc.to)))) }
{
    if !cables.starts(arc.from) {
        return false;
    }
    !leads_back(cables, arc)
}
