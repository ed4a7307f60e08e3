//! Used arcs that no legal layout has both of.

ghost use Rattle.std.specs.Prelude.{◌≡◌, ◌≢◌, ℕ, ◌≤◌, ◌<◌, ◌↔◌, IsTrue, length, slice_get, Some, IfSome, IfNone};
ghost use Rattle.cable_definitions.specs.Arcs.{AreArcs};
ghost use Rattle.cable_definitions.specs.Tree.{IsUsedPair};
ghost use Rattle.node_reasons.specs.Reasons.{AreIncompatibleAt};

use crate::node::NodeBox;
use candidate_cables::Arcs;
use node_works::{Decisions, Mark};
use site_model::Site;

/// Whether an arc is marked used.
fn is_used(decisions: &Decisions, arc: u32) -> bool
    ensures used { IsTrue result ↔ (slice_get decisions.now arc ≡ Some Mark.Used) }
    ensures within { IsTrue result → arc < length decisions.now }
{
    let marks = decisions.as_slice();
    let place = arc as usize;
    if place >= marks.len() {
        return false;
    }
    match marks[place] {
        Mark::Free => false,
        Mark::Used => true,
        Mark::Unused => false,
    }
}

/// Whether the arcs of these numbers are incompatible.
fn are_incompatible(site: &Site, arcs: &Arcs, a: u32, b: u32) -> bool
    requires arcs { AreArcs site.now arcs.now }
    requires first { a < length arcs.now }
    requires second { b < length arcs.now }
    ensures { IsTrue result ↔ AreIncompatibleAt site.now arcs.now a b }
{
    let _first = arcs.get(a);
    let _second = arcs.get(b);
    arcs.incompatible(site, a, b)
}

/// Whether two different arcs are both marked used and are incompatible.
pub(crate) fn is_used_pair(node: &NodeBox, a: u32, b: u32) -> bool
    ensures { IsTrue result ↔ ((a ≢ b) × IsUsedPair node.now.site node.now.arcs node.now.marks a b) }
{
    if a == b {
        return false;
    }
    if !is_used(node.decisions, a) {
        return false;
    }
    if !is_used(node.decisions, b) {
        return false;
    }
    are_incompatible(node.site, node.arcs, a, b)
}

/// One of the first so many arcs that is incompatible with this one.
fn incompatible_with(site: &Site, arcs: &Arcs, numbers: &[u32], count: usize, a: u32) -> Option<u32>
    requires arcs { AreArcs site.now arcs.now }
    requires count { count ≤ length numbers.now }
    requires within { (j k : ℕ) → slice_get numbers.now j ≡ Some k → k < length arcs.now }
    requires arc { a < length arcs.now }
    ensures some { IfSome result (λ other. (j : ℕ) × (j < count) × (slice_get numbers.now j ≡ Some other) × AreIncompatibleAt site.now arcs.now other a) }
    ensures none { IfNone result ((j k : ℕ) → j < count → slice_get numbers.now j ≡ Some k → ¬ (AreIncompatibleAt site.now arcs.now k a)) }
{
    for place in 0..count {
        let other = number_at(numbers, place);
        if are_incompatible(site, arcs, other, a) {
            return Some(other);
        }
    }
    None
}

/// The number at a place.
fn number_at(numbers: &[u32], place: usize) -> u32
    requires { place < length numbers.now }
    ensures { slice_get numbers.now place ≡ Some result }
{
    numbers[place]
}

/// Two used arcs that are incompatible.
pub(crate) fn find_pair(node: &NodeBox) -> Option<(u32, u32)>
    ensures pair { IfSome result (λ pair. (pair.0 ≢ pair.1) × IsUsedPair node.now.site node.now.arcs node.now.marks pair.0 pair.1) }
    ensures none { IfNone result ((a b : ℕ) → a ≢ b → ¬ (IsUsedPair node.now.site node.now.arcs node.now.marks a b)) }
{
    match node.used.same_start() {
        Some(pair) => return Some(pair),
        None => (),
    }
    let numbers = node.used.numbers();
    for place in 0..numbers.len() {
        let arc = number_at(numbers, place);
        match incompatible_with(node.site, node.arcs, numbers, place, arc) {
            Some(other) => return Some((other, arc)),
            None => (),
        }
    }
    None
}
