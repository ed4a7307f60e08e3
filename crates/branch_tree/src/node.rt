//! The nodes of a tree, in the order in which they are made, and what an act makes of them.

ghost use Rattle.std.specs.Prelude.{◌≡◌, ℕ, ◌+◌, ◌-◌, ◌*◌, ◌≤◌, ◌<◌, ◌≢◌, ◌↔◌, IsTrue, ◌∷◌, [], ◌++◌, slice_get, Some, length, map, List, vec_len, vec_capacity};
ghost use Rattle.std.specs.Option.{option_map};
ghost use Rattle.cable_definitions.specs.declared.row.Mark.{Mark as AMark};
ghost use Rattle.cable_definitions.specs.Tree.{Node, node_of, Unworked as UnworkedStatus, mark_in, child as child_of, root as root_node, is_open_leaf as is_open_leaf_of};
ghost use Rattle.branch_tree.specs.Nodes.{as_node, as_status, ArePlaced, or_mark, IsLeastOf};
ghost use Rattle.branch_tree.specs.State.{nodes_after, status_after};

use cable_definitions::row::{Act, Mark};
use node_works::Decisions;

/// What was done with a node.
#[derive(Clone, Copy)]
pub(crate) enum NodeStatus {
    Unworked,
    WasSplit,
    Stopped,
    WasDead,
    WasFull,
}

/// A made node: its parent's number, its arc with its mark, its bound, and what was done with it.
#[derive(Clone, Copy)]
pub(crate) struct TreeNode {
    pub(crate) parent: u32,
    pub(crate) arc: u32,
    pub(crate) mark: Mark,
    pub(crate) bound: u128,
    pub(crate) status: NodeStatus,
}

/// The node of a number, from 1; none exactly where it wasn't made.
pub(crate) fn node_at(nodes: &[TreeNode], node: u32) -> Option<TreeNode>
    ensures { node_of (map as_node nodes.now) node ≡ option_map as_node result }
{
    let past = node as usize;
    if past == 0 {
        return None;
    }
    if past > nodes.len() {
        return None;
    }
    Some(nodes[past - 1])
}

/// The node of a number that was made.
fn stored_node(nodes: &[TreeNode], node: u32) -> TreeNode
    requires made { 1 ≤ node }
    requires within { node ≤ length nodes.now }
    ensures { slice_get (map as_node nodes.now) (node - 1) ≡ Some (as_node result) }
{
    nodes[node as usize - 1]
}

/// What an act makes of a node.
fn status_after(act: Act) -> NodeStatus
    ensures { as_status result ≡ status_after act }
{
    match act {
        Act::Split(arc) => NodeStatus::WasSplit,
        Act::Stop => NodeStatus::Stopped,
        Act::Dead(why) => NodeStatus::WasDead,
        Act::Full => NodeStatus::WasFull,
    }
}

/// A node that a split makes.
fn child(parent: u32, bound: u128, arc: u32, mark: Mark) -> TreeNode
    ensures { as_node result ≡ child_of parent bound arc mark }
{
    TreeNode {
        parent,
        arc,
        mark,
        bound,
        status: NodeStatus::Unworked,
    }
}

/// Does an act on a node, which has this bound then.
pub(crate) fn do_act(nodes: &mut Vec<TreeNode>, node: u32, act: Act, bound: u128)
    requires made { 1 ≤ node }
    requires within { node ≤ length nodes.old.items }
    requires room { vec_len nodes.old + 2 ≤ vec_capacity nodes.old }
    ensures nodes { (n : Node) → node_of (map as_node nodes.old.items) node ≡ Some n
        → map as_node nodes.new.items ≡ nodes_after (map as_node nodes.old.items) node n act bound }
    ensures count { length nodes.new.items ≤ length nodes.old.items + 2 }
    ensures room { vec_capacity nodes.old ≤ vec_capacity nodes.new }
{
    let old = stored_node(nodes.as_slice(), node);
    nodes[node as usize - 1] = TreeNode {
        parent: old.parent,
        arc: old.arc,
        mark: old.mark,
        bound,
        status: status_after(act),
    };
    if let Act::Split(arc) = act {
        nodes.push_reserved(child(node, bound, arc, Mark::Used));
        nodes.push_reserved(child(node, bound, arc, Mark::Unused));
    }
}

/// Marks all arcs as free.
pub(crate) fn free_all(into: &mut Decisions, arcs: u32)
    requires { length into.old ≡ arcs }
    ensures count { length into.new ≡ arcs }
    ensures free { (a : ℕ) → a < arcs → slice_get into.new a ≡ Some Mark.Free }
{
    for arc in 0..arcs {
        into.set(arc, Mark::Free);
    }
}

/// Gives an arc this mark if it has none yet.
fn mark_if_free(into: &mut Decisions, arc: u32, mark: Mark)
    requires { arc < length into.old }
    ensures count { length into.new ≡ length into.old }
    ensures here { (m : AMark) → slice_get into.old arc ≡ Some m → slice_get into.new arc ≡ Some (or_mark m mark) }
    ensures elsewhere { (a : ℕ) → a ≢ arc → slice_get into.new a ≡ slice_get into.old a }
{
    match into.mark(arc) {
        Mark::Free => into.set(arc, mark),
        Mark::Used => (),
        Mark::Unused => (),
    }
}

/// Marks the arcs as a node decides them, where all are free before.
pub(crate) fn mark_decided(nodes: &[TreeNode], node: u32, into: &mut Decisions)
    requires made { 1 ≤ node }
    requires within { node ≤ length nodes.now }
    requires placed { ArePlaced (length into.old) (map as_node nodes.now) }
    requires free { (a : ℕ) → a < length into.old → slice_get into.old a ≡ Some Mark.Free }
    ensures count { length into.new ≡ length into.old }
    ensures marks { (a : ℕ) → a < length into.old → slice_get into.new a ≡ Some (mark_in node (map as_node nodes.now) a node) }
{
    let mut at = node;
    while at > 1 {
        let here = stored_node(nodes, at);
        mark_if_free(into, here.arc, here.mark);
        at = here.parent;
    }
}

/// Whether nothing was done with the node.
pub(crate) fn is_unworked(node: &TreeNode) -> bool
    ensures { IsTrue result ↔ (as_status node.now.status ≡ UnworkedStatus) }
{
    match node.status {
        NodeStatus::Unworked => true,
        NodeStatus::WasSplit => false,
        NodeStatus::Stopped => false,
        NodeStatus::WasDead => false,
        NodeStatus::WasFull => false,
    }
}

/// Whether the node is a leaf that isn't dead.
fn is_open_leaf(node: &TreeNode) -> bool
    ensures { result ≡ is_open_leaf_of (as_status node.now.status) }
{
    match node.status {
        NodeStatus::Unworked => true,
        NodeStatus::WasSplit => false,
        NodeStatus::Stopped => true,
        NodeStatus::WasDead => false,
        NodeStatus::WasFull => true,
    }
}

/// The least bound of the leaves that aren't dead.
pub(crate) fn least_bound(nodes: &[TreeNode]) -> Option<u128>
    ensures { IsLeastOf (map as_node nodes.now) result }
{
    let mut least = None;
    for node in nodes {
        least = lesser_with_node(least, node);
    }
    least
}

/// The least of a bound and that of a node, where the node is a leaf that isn't dead.
fn lesser_with_node(least: Option<u128>, node: &TreeNode) -> Option<u128>
    ensures { (nodes : List Node) → IsLeastOf nodes least → IsLeastOf (nodes ++ as_node node.now ∷ []) result }
{
    if !is_open_leaf(node) {
        return least;
    }
    match least {
        None => Some(node.bound),
        Some(bound) => Some(if node.bound < bound {
            node.bound
        } else {
            bound
        }),
    }
}

/// Node 1 before it is worked.
pub(crate) fn root() -> TreeNode
    ensures { as_node result ≡ root_node }
{
    TreeNode {
        parent: 0,
        arc: 0,
        mark: Mark::Free,
        bound: 0,
        status: NodeStatus::Unworked,
    }
}
