//! Full nodes, and their layouts.

ghost use Rattle.std.specs.Prelude.{◌≡◌, List, length, IfSome, IfNone};
ghost use Rattle.cable_definitions.specs.declared.cable.Cable.{Cable as ACable};
ghost use Rattle.cable_definitions.specs.Arcs.{AreArcs};
ghost use Rattle.cable_definitions.specs.Layout.{cost};
ghost use Rattle.cable_definitions.specs.Part.{AreCheapTyped};
ghost use Rattle.cable_definitions.specs.Tree.{IsFull, used_cables};

use crate::node::NodeBox;
use candidate_cables::Arcs;
use layout_meaning::{CableList, Layout, Verdict, judge_cables, with_cheapest_types};
use node_works::Decisions;
use site_model::Site;

impl<'a> NodeBox<'a> {
    /// The used arcs, each with the cheapest type that bears its load, or with type 0; none only where two of them start alike.
    fn cheapest_cables(&self) -> Option<CableList>
        ensures typed { IfSome result (AreCheapTyped self.now.site (used_cables self.now.arcs self.now.marks)) }
        ensures none { IfNone result ((cables : List ACable) → ¬ (IsFull self.now.site self.now.arcs self.now.marks cables)) }
    {
        match self.used.same_start() {
            Some(pair) => None,
            None => Some(with_cheapest_types(self.site, self.used.cables())),
        }
    }

    /// The cost, in cost units, of the full layout of the node; none exactly where the node isn't full. It takes no memory.
    pub fn is_full(&self) -> Option<u64>
        ensures full { IfSome result (λ c. (cables : List ACable) × IsFull self.now.site self.now.arcs self.now.marks cables × (c ≡ cost self.now.site cables)) }
        ensures none { IfNone result ((cables : List ACable) → ¬ (IsFull self.now.site self.now.arcs self.now.marks cables)) }
    {
        match self.cheapest_cables() {
            None => None,
            Some(typed) => match judge_cables(self.site, typed.as_slice()) {
                Verdict::Legal(cost) => Some(cost),
                Verdict::Broken(rule, a, b) => None,
            },
        }
    }

    /// Replaces the cables of `into` by the full layout of the node, which is full: the used arcs in ascending order of start, each with the
    /// cheapest type that bears its load. It takes no memory.
    pub fn full_layout(&self, into: &mut Layout)
        requires full { (cables : List ACable) × IsFull self.now.site self.now.arcs self.now.marks cables }
        ensures { IsFull self.now.site self.now.arcs self.now.marks into.new }
    {
        match self.cheapest_cables() {
            None => unreachable!(),
            Some(typed) => into.replace(typed.as_slice()),
        }
    }
}

/// The cost, in cost units, of the full layout of a node with these decisions; none exactly where the node isn't full. It takes no memory.
pub fn is_full(site: &Site, arcs: &Arcs, decisions: &Decisions) -> Option<u64>
    requires arcs { AreArcs site.now arcs.now }
    requires count { length decisions.now ≡ length arcs.now }
    ensures full { IfSome result (λ c. (cables : List ACable) × IsFull site.now arcs.now decisions.now cables × (c ≡ cost site.now cables)) }
    ensures none { IfNone result ((cables : List ACable) → ¬ (IsFull site.now arcs.now decisions.now cables)) }
{
    NodeBox::new(site, arcs, decisions).is_full()
}

/// Replaces the cables of `into` by the full layout of a node that is full: the used arcs in ascending order of start, each with the
/// cheapest type that bears its load. It takes no memory.
pub fn full_layout(site: &Site, arcs: &Arcs, decisions: &Decisions, into: &mut Layout)
    requires arcs { AreArcs site.now arcs.now }
    requires count { length decisions.now ≡ length arcs.now }
    requires full { (cables : List ACable) × IsFull site.now arcs.now decisions.now cables }
    ensures { IsFull site.now arcs.now decisions.now into.new }
{
    NodeBox::new(site, arcs, decisions).full_layout(into)
}
