//! The tree of nodes, made by works that a budget bounds.

ghost use Rattle.std.specs.Prelude.{◌≡◌, ℕ, ◌+◌, ◌^◌, ◌≤◌, ◌<◌, ◌↔◌, ◌≢◌, pos, nat_abs, ◌≤ℤ◌, ◌<ℤ◌, List, length, IsTrue, IfOk, OnOk, OnErr, IfSome, IfNone, Some, None};
ghost use Rattle.cable_definitions.specs.declared.cable.Arc.{Arc};
ghost use Rattle.cable_definitions.specs.Tree.{Node, node_of, marks_of, ProofState, IsLeastBound, AllDead, Unworked as UnworkedStatus};
ghost use Rattle.proof_laws.specs.WorksLeft.{IsUnworked};
ghost use Rattle.branch_tree.specs.State.{TreeState, new_tree, tree_after, IsMade, ActIsWithin};

use crate::node::{
    TreeNode, do_act, free_all, is_unworked, least_bound, mark_decided, node_at, root,
};
use cable_definitions::row::Act;
use node_works::Decisions;
use std::alloc::{AllocError, Global};
use std::marker::Model;

/// Why a node isn't worked.
#[derive(Clone, Copy, Debug, PartialEq, Eq, thiserror::Error)]
pub enum TreeFault {
    #[error("the budget of works is used up")]
    Budget,
    #[error("the node wasn't made")]
    Unmade,
    #[error("the node is worked already")]
    Worked,
}

/// The nodes that works make, numbered from 1, whose room is taken when the tree is made.
#[derive(Drop)]
pub struct Tree {
    budget: u32,
    arcs: u32,
    works: u32,
    nodes: Vec<TreeNode>,
}

impl Model for Tree {
    ghost use Rattle.std.specs.Prelude.{map, vec_capacity};
    ghost use Rattle.branch_tree.specs.State.{TreeState};

    ghost Value = { TreeState };

    ghost use Rattle.branch_tree.specs.Nodes.{as_node, IsTreeState};

    ghost view = { λ t. record { budget = t.budget; arcs = t.arcs; nodes = map as_node t.nodes.items; works = t.works } };

    ghost invariant = { λ t. IsTreeState (record { budget = t.budget; arcs = t.arcs; nodes = map as_node t.nodes.items; works = t.works }) (vec_capacity t.nodes) };
}

impl Tree {
    /// A tree of the root alone, for so many works over so many arcs. All memory is taken here.
    ///
    /// # Errors
    ///
    /// `AllocError` where there is no memory for the nodes of these works.
    pub fn new(alloc: Global, budget: u32, arcs: u32) -> Result<Tree, AllocError>
        requires some_work { 1 ≤ budget }
        requires most_works { budget ≤ 50000 }
        requires most_arcs { arcs ≤ 65280 }
        ensures { IfOk result (λ tree. tree ≡ new_tree budget arcs) }
    {
        let mut nodes = Vec::with_capacity(alloc, 2 * budget as usize + 1)?;
        nodes.push_reserved(root());
        Ok(Tree {
            budget,
            arcs,
            works: 0,
            nodes,
        })
    }

    /// How many nodes were made.
    pub fn count(&self) -> u32
        ensures count { result ≡ length self.now.nodes }
        ensures most { result ≤ 100001 }
    {
        self.nodes.len() as u32
    }

    /// How many nodes were worked.
    pub fn works(&self) -> u32
        ensures works { result ≡ self.now.works }
        ensures most { self.now.works ≤ self.now.budget }
    {
        self.works
    }

    /// Whether the node of this number was made and isn't worked.
    pub fn unworked(&self, node: u32) -> bool
        ensures { IsTrue result ↔ IsUnworked self.now.nodes node }
    {
        match node_at(self.nodes.as_slice(), node) {
            None => false,
            Some(made) => is_unworked(&made),
        }
    }

    /// The bound of a node that was made, in cost units: its own, or its parent's while it is unworked.
    pub fn bound(&self, node: u32) -> i128
        requires { IsMade self.now.nodes node }
        ensures bound { (made : Node) → node_of self.now.nodes node ≡ Some made → result ≡ pos made.bound }
        ensures not_negative { pos 0 ≤ℤ result }
        ensures small { result <ℤ pos (2 ^ 100) }
    {
        match node_at(self.nodes.as_slice(), node) {
            None => 0,
            Some(made) => made.bound as i128,
        }
    }

    /// Marks each arc as the nearest node decides it, this node or one above it; without one it is free.
    pub fn decisions(&self, node: u32, into: &mut Decisions)
        requires made { IsMade self.now.nodes node }
        requires count { length into.old ≡ self.now.arcs }
        ensures { (arcs : List Arc) → length arcs ≡ self.now.arcs → into.new ≡ marks_of arcs self.now.nodes node }
    {
        free_all(into, self.arcs);
        mark_decided(self.nodes.as_slice(), node, into);
    }

    /// Does an act on a node, which has this bound then, in cost units.
    ///
    /// # Errors
    ///
    /// `Budget` where as many works were done as the budget has, else `Unmade` where there is no such node, else `Worked` where the
    /// node is worked already. Nothing changes then.
    pub fn work(&mut self, node: u32, act: Act, bound: i128) -> Result<(), TreeFault>
        requires not_negative { pos 0 ≤ℤ bound }
        requires small { bound <ℤ pos (2 ^ 100) }
        requires within { ActIsWithin self.old.arcs act }
        ensures budget { result ≡ Err TreeFault.Budget ↔ (self.old.works ≡ self.old.budget) }
        ensures unmade { result ≡ Err TreeFault.Unmade ↔ (self.old.works ≢ self.old.budget) × (node_of self.old.nodes node ≡ None) }
        ensures worked { result ≡ Err TreeFault.Worked
            ↔ (self.old.works ≢ self.old.budget) × ((made : Node) × (node_of self.old.nodes node ≡ Some made) × (made.status ≢ UnworkedStatus)) }
        ensures ok { OnOk result ((made : Node) × (node_of self.old.nodes node ≡ Some made) × (made.status ≡ UnworkedStatus)
            × (self.new ≡ tree_after self.old node made act (nat_abs bound))) }
        ensures err { OnErr result (self.new ≡ self.old) }
    {
        if self.works == self.budget {
            return Err(TreeFault::Budget);
        }
        let Some(made) = node_at(self.nodes.as_slice(), node) else {
            return Err(TreeFault::Unmade);
        };
        if !is_unworked(&made) {
            return Err(TreeFault::Worked);
        }
        do_act(&mut self.nodes, node, act, bound as u128);
        self.works += 1;
        Ok(())
    }

    /// The least bound of the leaves that aren't dead, in cost units; none exactly where all leaves are dead.
    pub fn least(&self) -> Option<i128>
        ensures some { IfSome result (λ bound. (kept : ProofState) → kept.nodes ≡ self.now.nodes → IsLeastBound kept (nat_abs bound)) }
        ensures not_negative { IfSome result (λ bound. pos 0 ≤ℤ bound) }
        ensures none { IfNone result ((kept : ProofState) → kept.nodes ≡ self.now.nodes → AllDead kept) }
    {
        match least_bound(self.nodes.as_slice()) {
            None => None,
            Some(bound) => Some(bound as i128),
        }
    }
}
