//! The arc that a node is split on.

ghost use Rattle.std.specs.Prelude.{◌≡◌, ◌≢◌, ◌<◌, length, slice_get, Some, IsTrue, false};
ghost use Rattle.stored_makers.specs.Choosers.{AreBeside, IsFreeChoice};

use bound_shares::Shares;
use candidate_cables::Arcs;
use node_works::{Decisions, Mark};

/// The share of half a cable.
const HALF: u32 = 1 << 19;

/// How far a share lies from half a cable; what lies above it counts half, so that an arc that is mostly used comes before one that is rarely used.
fn distance(share: u32) -> u32 {
    if share > HALF {
        (share - HALF) / 2
    } else {
        HALF - share
    }
}

/// Whether an arc is free.
fn is_free(decisions: &Decisions, arc: u32) -> bool
    requires { arc < length decisions.now }
    ensures free { IsTrue result → slice_get decisions.now arc ≡ Some Mark.Free }
    ensures taken { result ≡ false → slice_get decisions.now arc ≢ Some Mark.Free }
{
    matches!(decisions.mark(arc), Mark::Free)
}

/// The free arc of which the shares leave it most open whether it is used, of these the one of least number; none where no arc is free.
pub fn most_open(arcs: &Arcs, decisions: &Decisions, shares: &Shares) -> Option<u32>
    requires { AreBeside arcs.now decisions.now shares.now }
    ensures { IsFreeChoice decisions.now result }
{
    let mut best: Option<u32> = None;
    let mut least = u32::MAX;
    for arc in 0..arcs.len() {
        if is_free(decisions, arc) && (best.is_none() || distance(shares.get(arc)) < least) {
            least = distance(shares.get(arc));
            best = Some(arc);
        }
    }
    best
}
