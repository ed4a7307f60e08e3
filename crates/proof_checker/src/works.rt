//! A work done or refused.

ghost use Rattle.std.specs.Prelude.{◌≡◌, ℕ, ◌≤◌, ◌<◌, ◌^◌, ℤ, pos, nat_abs, ◌≤ℤ◌, ◌<ℤ◌, length, Some, OnOk, OnErr, IfErr};
ghost use Rattle.cable_definitions.specs.declared.cable.Arc.{Arc as AnArc};
ghost use Rattle.cable_definitions.specs.Arcs.{AreArcs};
ghost use Rattle.cable_definitions.specs.Choice.{AreLawful, IsValue};
ghost use Rattle.cable_definitions.specs.Tree.{Node, node_of, marks_of, IsBound, IsWorked, ceiling as ceiling_of};
ghost use Rattle.cable_definitions.specs.Refusal.{IsWorkRefused, IsLeastCause};
ghost use Rattle.proof_laws.specs.WorksLeft.{IsUnworked};
ghost use Rattle.branch_tree.specs.State.{tree_after, IsMade, ActIsWithin};
ghost use Rattle.proof_checker.specs.State.{kept_from};

use crate::acts::bound_after;
use bound_value::{lawful, rounded_bound, weigh};
use branch_tree::Tree;
use cable_definitions::claim::Cause;
use cable_definitions::row::Act;
use cable_rows::RowPool;
use candidate_cables::Arcs;
use node_reasons::NodeBox;
use node_works::{Decisions, Work};
use site_model::Site;

/// Marks each arc as a node that was made decides it.
fn mark_arcs(arcs: &Arcs, tree: &Tree, node: u32, into: &mut Decisions)
    requires tree_arcs { tree.now.arcs ≡ length arcs.now }
    requires count { length into.old ≡ length arcs.now }
    requires made { IsMade tree.now.nodes node }
    ensures marks { into.new ≡ marks_of arcs.now tree.now.nodes node }
    ensures count { length into.new ≡ length arcs.now }
{
    tree.decisions(node, into);
}

/// The bound of a node with the value of a work's weights, in cost units, where the decisions are those of the node.
fn new_bound(
    site: &Site,
    arcs: &Arcs,
    pool: &RowPool,
    tree: &Tree,
    decisions: &Decisions,
    work: &Work,
) -> i128
    requires arcs { AreArcs site.now arcs.now }
    requires count { length decisions.now ≡ length arcs.now }
    requires made { IsMade tree.now.nodes work.now.node }
    requires lawful { AreLawful pool.now work.now.weights }
    ensures bound { (node : Node) → node_of tree.now.nodes work.now.node ≡ Some node
        → (value : ℤ) × IsValue site.now arcs.now pool.now decisions.now work.now.weights value × IsBound node.bound value (nat_abs result) }
    ensures not_negative { pos 0 ≤ℤ result }
    ensures small { result <ℤ pos (2 ^ 100) }
{
    let value = weigh(site, arcs, pool, decisions, &work.weights);
    rounded_bound(tree.bound(work.node), value)
}

/// Does an act on a node that isn't worked, which has this bound then.
fn do_act(tree: &mut Tree, node: u32, act: Act, bound: i128)
    requires room { tree.old.works < tree.old.budget }
    requires unworked { IsUnworked tree.old.nodes node }
    requires not_negative { pos 0 ≤ℤ bound }
    requires small { bound <ℤ pos (2 ^ 100) }
    requires within { ActIsWithin tree.old.arcs act }
    ensures { (made : Node) → node_of tree.old.nodes node ≡ Some made → tree.new ≡ tree_after tree.old node made act (nat_abs bound) }
{
    let _ = tree.work(node, act, bound);
}

/// Does a work with lawful weights on a node that isn't worked, within the budget.
fn work_node(
    site: &Site,
    arcs: &Arcs,
    pool: &RowPool,
    tree: &mut Tree,
    decisions: &mut Decisions,
    ceiling: u64,
    work: &Work,
) -> Result<(), Cause>
    requires arcs { AreArcs site.now arcs.now }
    requires tree_arcs { tree.old.arcs ≡ length arcs.now }
    requires count { length decisions.old ≡ length arcs.now }
    requires ceiling { ceiling ≡ ceiling_of site.now arcs.now }
    requires lawful { AreLawful pool.now work.now.weights }
    requires few { length work.now.weights ≤ 1024 }
    requires room { tree.old.works < tree.old.budget }
    requires unworked { IsUnworked tree.old.nodes work.now.node }
    ensures worked { OnOk result (IsWorked site.now arcs.now tree.old.budget (kept_from pool.now tree.old) work.now.node work.now.weights work.now.act (kept_from pool.now tree.new)) }
    ensures refused { IfErr result (IsLeastCause (IsWorkRefused site.now arcs.now tree.old.budget (kept_from pool.now tree.old) work.now.node work.now.weights work.now.act)) }
    ensures same { OnErr result (tree.new ≡ tree.old) }
    ensures tree_budget { tree.new.budget ≡ tree.old.budget }
    ensures tree_arcs { tree.new.arcs ≡ tree.old.arcs }
    ensures count { length decisions.new ≡ length arcs.now }
{
    mark_arcs(arcs, tree, work.node, decisions);
    let bound = new_bound(site, arcs, pool, tree, decisions, work);
    let node = NodeBox::new(site, arcs, decisions);
    match bound_after(&node, pool, decisions, ceiling, bound, work.act) {
        Err(cause) => Err(cause),
        Ok(after) => {
            do_act(tree, work.node, work.act, after);
            Ok(())
        }
    }
}

/// Does a work within the budget, where this is the ceiling of the site. It takes no memory.
///
/// # Errors
///
/// `Limit` where as many works were done as the budget has, else `Node` where the node wasn't made or is worked, else `Weight` where the
/// weights aren't lawful, else what keeps the act from being done: `Arc`, `Dead` or `Full`. Nothing changes in the tree then.
pub(crate) fn do_work(
    site: &Site,
    arcs: &Arcs,
    pool: &RowPool,
    tree: &mut Tree,
    decisions: &mut Decisions,
    budget: u32,
    ceiling: u64,
    work: &Work,
) -> Result<(), Cause>
    requires arcs { AreArcs site.now arcs.now }
    requires tree_budget { tree.old.budget ≡ budget }
    requires tree_arcs { tree.old.arcs ≡ length arcs.now }
    requires count { length decisions.old ≡ length arcs.now }
    requires ceiling { ceiling ≡ ceiling_of site.now arcs.now }
    ensures worked { OnOk result (IsWorked site.now arcs.now budget (kept_from pool.now tree.old) work.now.node work.now.weights work.now.act (kept_from pool.now tree.new)) }
    ensures refused { IfErr result (IsLeastCause (IsWorkRefused site.now arcs.now budget (kept_from pool.now tree.old) work.now.node work.now.weights work.now.act)) }
    ensures same { OnErr result (tree.new ≡ tree.old) }
    ensures tree_budget { tree.new.budget ≡ budget }
    ensures tree_arcs { tree.new.arcs ≡ tree.old.arcs }
    ensures count { length decisions.new ≡ length arcs.now }
{
    // The weights come with the fact that they are few.
    let _weights = work.weights.as_slice();
    if tree.works() >= budget {
        return Err(Cause::Limit);
    }
    if !tree.unworked(work.node) {
        return Err(Cause::Node);
    }
    if !lawful(pool, &work.weights) {
        return Err(Cause::Weight);
    }
    work_node(site, arcs, pool, tree, decisions, ceiling, work)
}
