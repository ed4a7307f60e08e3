//! Whether an act of a work may be done, and the bound that its node has then.

ghost use Rattle.std.specs.Prelude.{◌≡◌, ◌^◌, ◌↔◌, pos, nat_abs, ◌≤ℤ◌, ◌<ℤ◌, slice_get, Some, IsTrue, IfOk, IfErr};
ghost use Rattle.cable_definitions.specs.Tree.{ceiling as ceiling_of};
ghost use Rattle.proof_checker.specs.Acts.{MayAct, MayNotAct};

use cable_definitions::claim::Cause;
use cable_definitions::row::{Act, Why};
use cable_rows::RowPool;
use node_reasons::NodeBox;
use node_works::{Decisions, Mark};

/// Whether the number is that of an arc that is free.
fn is_free(decisions: &Decisions, arc: u32) -> bool
    ensures { IsTrue result ↔ (slice_get decisions.now arc ≡ Some Mark.Free) }
{
    let marks = decisions.as_slice();
    if arc as usize >= marks.len() {
        return false;
    }
    match marks[arc as usize] {
        Mark::Free => true,
        Mark::Used => false,
        Mark::Unused => false,
    }
}

/// The bound of a node that is split on an arc: its new one.
fn split_bound(
    node: &NodeBox,
    pool: &RowPool,
    decisions: &Decisions,
    bound: i128,
    arc: u32,
) -> Result<i128, Cause>
    requires { node.now.marks ≡ decisions.now }
    ensures fits { IfOk result (λ after. (after ≡ bound) × MayAct node.now.site node.now.arcs pool.now node.now.marks (nat_abs bound) (Act.Split arc) (nat_abs after)) }
    ensures refused { IfErr result (MayNotAct node.now.site node.now.arcs pool.now node.now.marks (nat_abs bound) (Act.Split arc)) }
{
    if is_free(decisions, arc) {
        return Ok(bound);
    }
    Err(Cause::Arc)
}

/// The bound of a dead node: its new one.
fn dead_bound(
    node: &NodeBox,
    pool: &RowPool,
    ceiling: u64,
    bound: i128,
    why: Why,
) -> Result<i128, Cause>
    requires ceiling { ceiling ≡ ceiling_of node.now.site node.now.arcs }
    requires not_negative { pos 0 ≤ℤ bound }
    ensures fits { IfOk result (λ after. (after ≡ bound) × MayAct node.now.site node.now.arcs pool.now node.now.marks (nat_abs bound) (Act.Dead why) (nat_abs after)) }
    ensures refused { IfErr result (MayNotAct node.now.site node.now.arcs pool.now node.now.marks (nat_abs bound) (Act.Dead why)) }
{
    if node.is_dead(pool, bound, ceiling, why) {
        return Ok(bound);
    }
    Err(Cause::Dead)
}

/// The bound of a full node: the cost of its layout.
fn full_bound(node: &NodeBox, pool: &RowPool, bound: i128) -> Result<i128, Cause>
    ensures fits { IfOk result (λ after. MayAct node.now.site node.now.arcs pool.now node.now.marks (nat_abs bound) Act.Full (nat_abs after)) }
    ensures refused { IfErr result (MayNotAct node.now.site node.now.arcs pool.now node.now.marks (nat_abs bound) Act.Full) }
    ensures not_negative { IfOk result (λ after. pos 0 ≤ℤ after) }
    ensures small { IfOk result (λ after. after <ℤ pos (2 ^ 100)) }
{
    match node.is_full() {
        None => Err(Cause::Full),
        Some(cost) => Ok(i128::from(cost)),
    }
}

/// The bound that a node with these decisions has after an act, from its new bound, in cost units, where this is the ceiling of the site. It takes no memory.
///
/// # Errors
///
/// `Arc` where a split names no arc that is free, `Dead` where a reason isn't true of the node with its new bound, `Full` where the node
/// isn't full.
pub(crate) fn bound_after(
    node: &NodeBox,
    pool: &RowPool,
    decisions: &Decisions,
    ceiling: u64,
    bound: i128,
    act: Act,
) -> Result<i128, Cause>
    requires marks { node.now.marks ≡ decisions.now }
    requires ceiling { ceiling ≡ ceiling_of node.now.site node.now.arcs }
    requires not_negative { pos 0 ≤ℤ bound }
    requires small { bound <ℤ pos (2 ^ 100) }
    ensures fits { IfOk result (λ after. MayAct node.now.site node.now.arcs pool.now node.now.marks (nat_abs bound) act (nat_abs after)) }
    ensures refused { IfErr result (MayNotAct node.now.site node.now.arcs pool.now node.now.marks (nat_abs bound) act) }
    ensures not_negative { IfOk result (λ after. pos 0 ≤ℤ after) }
    ensures small { IfOk result (λ after. after <ℤ pos (2 ^ 100)) }
{
    match act {
        Act::Split(arc) => split_bound(node, pool, decisions, bound, arc),
        Act::Stop => Ok(bound),
        Act::Dead(why) => dead_bound(node, pool, ceiling, bound, why),
        Act::Full => full_bound(node, pool, bound),
    }
}
