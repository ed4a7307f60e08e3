//! What is done with a node that needs no split.

ghost use Rattle.std.specs.Prelude.{◌≡◌, ◌↔◌, ◌^◌, pos, ◌≤ℤ◌, ◌<ℤ◌, unsigned_abs, IsTrue};
ghost use Rattle.cable_definitions.specs.Tree.{ceiling as ceiling_of};
ghost use Rattle.search_progress.specs.Chosen.{IsBeaten};
ghost use Rattle.search_progress.specs.Settled.{IsSettled};

use branch_tree::Act;
use cable_rows::RowPool;
use node_reasons::NodeBox;

/// An act on a node, and the bound that the node has after it, in cost units.
#[derive(Clone, Copy)]
pub struct Choice {
    pub act: Act,
    pub bound: i128,
}

/// Whether a cost is known and the bound isn't below it.
pub(crate) fn is_beaten(known: Option<u64>, bound: i128) -> bool
    requires { pos 0 ≤ℤ bound }
    ensures { IsTrue result ↔ IsBeaten known (unsigned_abs bound) }
{
    match known {
        None => false,
        Some(cost) => i128::from(cost) <= bound,
    }
}

/// What is done with a node with this bound, where this is the ceiling of the site and this cost is known, if it needs no split: it is dead, or full, or stopped since no
/// layout in its box is cheaper than the known one.
pub fn closing(
    node: &NodeBox,
    pool: &RowPool,
    ceiling: u64,
    known: Option<u64>,
    bound: i128,
) -> Option<Choice>
    requires ceiling { ceiling ≡ ceiling_of node.now.site node.now.arcs }
    requires not_negative { pos 0 ≤ℤ bound }
    requires small { bound <ℤ pos (2 ^ 100) }
    ensures settled { IsSettled node.now.site node.now.arcs pool.now node.now.marks known (unsigned_abs bound) result }
{
    if let Some(why) = node.find_dead(pool, bound, ceiling) {
        let act = Act::Dead(why);
        return Some(Choice { act, bound });
    }
    if let Some(cost) = node.is_full() {
        let bound = i128::from(cost);
        return Some(Choice {
            act: Act::Full,
            bound,
        });
    }
    if is_beaten(known, bound) {
        let act = Act::Stop;
        return Some(Choice { act, bound });
    }
    None
}
