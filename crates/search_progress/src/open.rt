//! The open nodes, and which of them is taken next: one of least bound, as best-first branch and bound does.

ghost use Rattle.std.specs.Prelude.{◌≡◌, ◌⊎◌, ◌+◌, ◌↔◌, ℕ, ◌≤ℤ◌, List, length, slice_get, IsTrue, false, Some, IfSome, IfNone};
ghost use Rattle.search_progress.specs.Chosen.{IsBeaten};
ghost use Rattle.search_progress.specs.Open.{IsIn, IsFree, IsFirstBelow};

use crate::settling::is_beaten;
use branch_tree::Tree;

/// An open node: its number, and its bound in cost units.
#[derive(Clone, Copy)]
pub(crate) struct OpenNode {
    pub(crate) node: u32,
    pub(crate) bound: i128,
}

/// Whether a node is taken before another: it has the lesser bound, or the lesser number where their bounds are equal.
fn comes_first(node: OpenNode, other: OpenNode) -> bool
    ensures before { IsTrue result → node.bound ≤ℤ other.bound }
    ensures behind { result ≡ false → other.bound ≤ℤ node.bound }
{
    if node.bound == other.bound {
        return node.node < other.node;
    }
    node.bound < other.bound
}

/// The one of two nodes that is taken first; the first may be missing.
fn first_of(first: Option<OpenNode>, second: OpenNode) -> OpenNode
    ensures either { (result ≡ second) ⊎ (first ≡ Some result) }
    ensures least { result.bound ≤ℤ second.bound }
    ensures least_first { IfSome first (λ node. result.bound ≤ℤ node.bound) }
{
    match first {
        None => second,
        Some(node) => {
            if comes_first(node, second) {
                node
            } else {
                second
            }
        }
    }
}

/// Whether some lane holds a node.
fn is_held(lanes: &[Option<u32>], node: u32) -> bool
    ensures { IsTrue result ↔ IsIn lanes.now node }
{
    for lane in lanes {
        if *lane == Some(node) {
            return true;
        }
    }
    false
}

/// Whether a node isn't worked and no lane holds it.
fn is_free(node: u32, tree: &Tree, lanes: &[Option<u32>]) -> bool
    ensures { IsTrue result ↔ IsFree tree.now.nodes lanes.now node }
{
    if !tree.unworked(node) {
        return false;
    }
    !is_held(lanes, node)
}

/// The node that is taken first among those so far and this one, where this one is open.
fn better_with_node(
    node: u32,
    tree: &Tree,
    lanes: &[Option<u32>],
    first: Option<OpenNode>,
) -> Option<OpenNode>
    ensures { (numbers : List ℕ) (place : ℕ) → slice_get numbers place ≡ Some node
        → IsFirstBelow tree.now.nodes lanes.now numbers place first → IsFirstBelow tree.now.nodes lanes.now numbers (place + 1) result }
{
    if !is_free(node, tree, lanes) {
        return first;
    }
    let bound = tree.bound(node);
    Some(first_of(first, OpenNode { node, bound }))
}

/// The node that is taken first of the nodes of these numbers; none where none of them is open.
fn first_open(numbers: &[u32], tree: &Tree, lanes: &[Option<u32>]) -> Option<OpenNode>
    ensures { IsFirstBelow tree.now.nodes lanes.now numbers.now (length numbers.now) result }
{
    let mut first = None;
    for node in numbers {
        first = better_with_node(*node, tree, lanes, first);
    }
    first
}

/// The node that is taken next of the nodes of these numbers, where some open node has a bound below the known cost, or none is known.
pub(crate) fn first_wanted(
    numbers: &[u32],
    tree: &Tree,
    lanes: &[Option<u32>],
    known: Option<u64>,
) -> Option<u32>
    ensures some { IfSome result (λ v. (free : IsFree tree.now.nodes lanes.now v) × (¬ (IsBeaten known free.node.bound))) }
    ensures none { IfNone result ((place v : ℕ) (free : IsFree tree.now.nodes lanes.now v) → slice_get numbers.now place ≡ Some v → IsBeaten known free.node.bound) }
{
    match first_open(numbers, tree, lanes) {
        None => None,
        Some(first) => {
            if is_beaten(known, first.bound) {
                return None;
            }
            Some(first.node)
        }
    }
}
