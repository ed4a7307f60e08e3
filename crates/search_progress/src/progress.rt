//! How far a search is: rows, nodes, lanes and the known layout, and what each event changes in them.

ghost use Rattle.std.specs.Prelude.{◌≡◌, ℕ, ◌+◌, ◌^◌, ◌≤◌, ◌<◌, ◌↔◌, pos, ◌≤ℤ◌, ◌<ℤ◌, unsigned_abs, length, slice_get, slice_set, Some, None, false, IsTrue, IfOk, IfSome, IfNone, List, [], ◌∷◌, ◌++◌, ◌==◌, count_by, replicate, vec_capacity};
ghost use Rattle.std.specs.List.Sorted.{IsPermutation};
ghost use Rattle.cable_definitions.specs.declared.cable.Cable.{Cable};
ghost use Rattle.cable_definitions.specs.declared.cable.Arc.{Arc as AnArc};
ghost use Rattle.cable_definitions.specs.Site.{Site as ASite};
ghost use Rattle.cable_definitions.specs.Arcs.{AreArcs};
ghost use Rattle.cable_definitions.specs.Layout.{IsLegal, cost as cost_of};
ghost use Rattle.cable_definitions.specs.Choice.{AreLawful};
ghost use Rattle.cable_definitions.specs.Tree.{Item, Node, node_of, marks_of, IsWorked, IsFull};
ghost use Rattle.cable_definitions.specs.Core.{Event as AnEvent, IsPossible, IsWanted, IsBelowKnown, Takes, Finds, KnownAfter, IsClosed, IsSpent, is_holding, first_core};
ghost use Rattle.search_progress.specs.Chosen.{IsActFor, IsNodeBound};
ghost use Rattle.search_progress.specs.Progress.{kept_of, known_by, core_of, IsSearching, HasFirstRoom, KeepsBest, UpdatesIncumbent};

use crate::open::first_wanted;
use crate::rows::list_first_rows;
use crate::settling::{Choice, is_beaten};
use arc_choices::ceiling;
use branch_tree::{Act, Tree};
use cable_rows::RowPool;
use candidate_cables::Arcs;
use layout_meaning::{Layout, Verdict, judge};
use node_reasons::full_layout;
use node_works::{Decisions, Weights, Work};
use site_model::Site;
use std::alloc::{AllocError, Global};

/// How far a search is: the most works, the ceiling of the site in cost units, the rows, the tree and its nodes that aren't worked, the node that each
/// lane holds, and the known layout with its cost where one is known. The decisions are those of the node that is worked, the work is the last that was
/// done, and the last weights are those with which the next work begins: those that were raised last, or at node 1 those that prove the cost of the
/// cheapest in-tree.
///
/// The fields are public, so that who works a node can list rows and leave its decisions and weights here. `IsSearching` is what holds of them between
/// events.
#[derive(Drop)]
pub struct Progress {
    pub budget: u32,
    pub ceiling: u64,
    pub pool: RowPool,
    pub tree: Tree,
    pub decisions: Decisions,
    pub open_nodes: Vec<u32>,
    pub lanes: Vec<Option<u32>>,
    pub best: Layout,
    pub known: Option<u64>,
    pub work: Work,
    pub last: Weights,
}

/// How a search ended: no node that may hold a cheaper layout is left, or the budget of works is spent.
#[derive(Clone, Copy, Debug, PartialEq, Eq)]
pub enum Ended {
    Closed,
    Budget,
}

/// Node 1 alone, with room for the open nodes of so many works.
fn first_open(alloc: Global, budget: u32) -> Result<Vec<u32>, AllocError>
    requires { budget ≤ 50000 }
    ensures nodes { IfOk result (λ v. v.items ≡ 1 ∷ []) }
    ensures room { IfOk result (λ v. budget + 2 ≤ vec_capacity v) }
{
    let mut nodes = Vec::with_capacity(alloc, budget as usize + 2)?;
    nodes.push_reserved(1);
    Ok(nodes)
}

/// So many lanes that hold no node.
fn empty_lanes(alloc: Global, count: u32) -> Result<Vec<Option<u32>>, AllocError>
    ensures { IfOk result (λ v. v.items ≡ replicate count None) }
{
    vec![in alloc; None; count as usize]
}

/// How many lanes hold a node.
fn held_count(lanes: &[Option<u32>]) -> usize
    ensures count { result ≡ count_by is_holding lanes.now }
    ensures most { result ≤ length lanes.now }
{
    let mut count = 0;
    for lane in lanes {
        if lane.is_some() {
            count += 1;
        }
    }
    count
}

/// The place of a node in a list of nodes.
fn place_of(nodes: &[u32], node: u32) -> usize
    requires { 1 ≤ count_by (λ w. w == node) nodes.now }
    ensures { slice_get nodes.now result ≡ Some node }
{
    for place in 0..nodes.len() {
        if nodes[place] == node {
            return place;
        }
    }
    // The node stands in the list.
    unreachable!()
}

/// Takes a node out of a list of nodes.
fn remove_node(nodes: &mut Vec<u32>, node: u32)
    requires { 1 ≤ count_by (λ w. w == node) nodes.old.items }
    ensures rest { IsPermutation nodes.old.items (node ∷ nodes.new.items) }
    ensures room { vec_capacity nodes.new ≡ vec_capacity nodes.old }
{
    let place = place_of(nodes.as_slice(), node);
    let _ = nodes.swap_remove(place);
}

/// Adds the nodes that a split makes after so many nodes.
fn push_children(nodes: &mut Vec<u32>, act: Act, count: u32)
    requires count { count ≤ 100001 }
    requires room { length nodes.old.items + 2 ≤ vec_capacity nodes.old }
    ensures split { (arc : ℕ) → act ≡ Act.Split arc → nodes.new.items ≡ nodes.old.items ++ (count + 2) ∷ (count + 1) ∷ [] }
    ensures other { ((arc : ℕ) → ¬ (act ≡ Act.Split arc)) → nodes.new.items ≡ nodes.old.items }
    ensures room { vec_capacity nodes.new ≡ vec_capacity nodes.old }
{
    if let Act::Split(_) = act {
        nodes.push_reserved(count + 2);
        nodes.push_reserved(count + 1);
    }
}

/// Makes the layout of a full node, which has these decisions and this cost, the known one, where it is cheaper or none was known.
fn keep_full(
    site: &Site,
    arcs: &Arcs,
    decisions: &Decisions,
    cost: u64,
    known: &mut Option<u64>,
    best: &mut Layout,
)
    requires arcs { AreArcs site.now arcs.now }
    requires marks { length decisions.now ≡ length arcs.now }
    requires full { (cables : List Cable) × IsFull site.now arcs.now decisions.now cables }
    ensures { KeepsBest site.now arcs.now decisions.now cost known.old best.old known.new best.new }
{
    if is_beaten(*known, i128::from(cost)) {
        return;
    }
    full_layout(site, arcs, decisions, best);
    *known = Some(cost);
}

/// Makes the layout of a node that was found full, with its cost as the bound, the known one, where it is cheaper or none was known.
fn update_incumbent(
    site: &Site,
    arcs: &Arcs,
    decisions: &Decisions,
    act: Act,
    bound: i128,
    known: &mut Option<u64>,
    best: &mut Layout,
)
    requires arcs { AreArcs site.now arcs.now }
    requires marks { length decisions.now ≡ length arcs.now }
    requires full { act ≡ Act.Full → (cables : List Cable) × IsFull site.now arcs.now decisions.now cables }
    requires not_negative { pos 0 ≤ℤ bound }
    requires cost { act ≡ Act.Full → bound <ℤ pos (2 ^ 64) }
    ensures { UpdatesIncumbent site.now arcs.now decisions.now act (unsigned_abs bound) known.old best.old known.new best.new }
{
    match act {
        Act::Full => keep_full(site, arcs, decisions, bound as u64, known, best),
        Act::Split(_) | Act::Stop | Act::Dead(_) => {}
    }
}

impl Progress {
    /// A search of so many lanes that has listed the first rows, worked no node and knows no layout. Its lists have their room from here on.
    ///
    /// # Errors
    ///
    /// `AllocError` where there is no memory.
    pub fn new(
        alloc: Global,
        site: &Site,
        arcs: &Arcs,
        budget: u32,
        lanes: u32,
    ) -> Result<Progress, AllocError>
        requires arcs { AreArcs site.now arcs.now }
        requires some_work { 1 ≤ budget }
        requires most_works { budget ≤ 50000 }
        requires few_lanes { lanes ≤ 16 }
        ensures searching { IfOk result (IsSearching site.now arcs.now budget) }
        ensures room { IfOk result HasFirstRoom }
        ensures first { IfOk result (λ p. core_of (first_core site.now lanes).items p ≡ first_core site.now lanes) }
    {
        let _valid = site.points();
        let count = arcs.len();
        let mut pool = RowPool::new(alloc)?;
        list_first_rows(site, arcs, &mut pool);
        Ok(Progress {
            budget,
            ceiling: ceiling(site, arcs),
            pool,
            tree: Tree::new(alloc, budget, count)?,
            decisions: Decisions::new(alloc, count)?,
            open_nodes: first_open(alloc, budget)?,
            lanes: empty_lanes(alloc, lanes)?,
            best: Layout::new(alloc)?,
            known: None,
            work: Work {
                node: 0,
                weights: Weights::new(alloc)?,
                act: Act::Stop,
            },
            last: Weights::new(alloc)?,
        })
    }

    /// The node that a lane holds; none where there is no such lane, or it holds none.
    pub fn held(&self, lane: u32) -> Option<u32>
        ensures some { IfSome result (λ node. slice_get self.now.lanes.items lane ≡ Some (Some node)) }
        ensures none { IfNone result ((node : ℕ) → ¬ (slice_get self.now.lanes.items lane ≡ Some (Some node))) }
    {
        match self.lanes.as_slice().get(lane as usize) {
            None => None,
            Some(node) => *node,
        }
    }

    /// The wanted node that is taken next: of least bound, and of least number among these. None where no node is wanted.
    fn next(&self) -> Option<u32>
        ensures some { IfSome result (λ node. (s : ASite) (arcs : List AnArc) (n : ℕ) (items : List Item) → IsSearching s arcs n self.now → IsWanted s (core_of items self.now) node) }
        ensures none { IfNone result ((s : ASite) (arcs : List AnArc) (n : ℕ) (items : List Item) (node : ℕ) → IsSearching s arcs n self.now → ¬ (IsWanted s (core_of items self.now) node)) }
    {
        first_wanted(
            self.open_nodes.as_slice(),
            &self.tree,
            self.lanes.as_slice(),
            self.known,
        )
    }

    /// Has a lane take a node, and answers it; none where there is no such lane or it holds a node, where no node is wanted, or where nodes worked and
    /// nodes held are as many as the budget has.
    pub fn take(&mut self, lane: u32) -> Option<u32>
        ensures takes { IfSome result (λ node. (s : ASite) (arcs : List AnArc) (n : ℕ) (items : List Item) → IsSearching s arcs n self.old
            → Takes s n (core_of items self.old) lane (core_of items self.new)) }
        ensures node { IfSome result (λ node. slice_get self.new.lanes.items lane ≡ Some (Some node)) }
        ensures not_possible { IfNone result ((s : ASite) (arcs : List AnArc) (n : ℕ) (items : List Item) → IsSearching s arcs n self.old
            → ¬ (IsPossible s n (core_of items self.old) (AnEvent.Take lane))) }
        ensures same { IfNone result (self.new ≡ self.old) }
        ensures searching { (s : ASite) (arcs : List AnArc) (n : ℕ) → IsSearching s arcs n self.old → IsSearching s arcs n self.new }
    {
        if lane as usize >= self.lanes.len() || self.lanes[lane as usize].is_some() {
            return None;
        }
        let used = self.tree.works() as usize + held_count(self.lanes.as_slice());
        if used >= self.budget as usize {
            return None;
        }
        let node = self.next()?;
        self.lanes[lane as usize] = Some(node);
        Some(node)
    }

    /// Does an act on the node that a lane holds, which holds none then.
    pub fn act(&mut self, site: &Site, arcs: &Arcs, lane: u32, node: u32, choice: Choice)
        requires arcs { AreArcs site.now arcs.now }
        requires searching { (n : ℕ) × IsSearching site.now arcs.now n self.old }
        requires held { slice_get self.old.lanes.items lane ≡ Some (Some node) }
        requires marks { self.old.decisions ≡ marks_of arcs.now self.old.tree.nodes node }
        requires lawful { AreLawful self.old.pool self.old.work.weights }
        requires few { length self.old.work.weights ≤ 1024 }
        requires bound { (bound : ℕ) × ((made : Node) → node_of self.old.tree.nodes node ≡ Some made → IsNodeBound site.now arcs.now self.old.pool self.old.decisions self.old.work.weights made.bound bound)
            × IsActFor site.now arcs.now self.old.pool self.old.decisions self.old.known self.old.work.weights bound choice.act (unsigned_abs choice.bound) }
        requires not_negative { pos 0 ≤ℤ choice.bound }
        requires small { choice.bound <ℤ pos (2 ^ 100) }
        requires cost { choice.act ≡ Act.Full → choice.bound <ℤ pos (2 ^ 64) }
        ensures worked { (n : ℕ) → IsSearching site.now arcs.now n self.old → IsWorked site.now arcs.now n (kept_of self.old) node self.old.work.weights choice.act (kept_of self.new) }
        ensures bound { (made : Node) → node_of self.new.tree.nodes node ≡ Some made → made.bound ≡ unsigned_abs choice.bound }
        ensures known { KnownAfter site.now choice.act arcs.now self.old.decisions (known_by self.old.known self.old.best) (known_by self.new.known self.new.best) }
        ensures lanes { self.new.lanes.items ≡ slice_set self.old.lanes.items lane None }
        ensures pool { self.new.pool ≡ self.old.pool }
        ensures weights { self.new.work.weights ≡ self.old.work.weights }
        ensures node { self.new.work.node ≡ node }
        ensures act { self.new.work.act ≡ choice.act }
        ensures searching { (n : ℕ) → IsSearching site.now arcs.now n self.old → IsSearching site.now arcs.now n self.new }
    {
        let Choice { act, bound } = choice;
        let count = self.tree.count();
        match self.tree.work(node, act, bound) {
            Ok(()) => {}
            // The node isn't worked yet, and some of the budget is left.
            Err(_) => unreachable!(),
        }
        remove_node(&mut self.open_nodes, node);
        push_children(&mut self.open_nodes, act, count);
        update_incumbent(
            site,
            arcs,
            &self.decisions,
            act,
            bound,
            &mut self.known,
            &mut self.best,
        );
        self.lanes[lane as usize] = None;
        self.work.node = node;
        self.work.act = act;
    }

    /// Makes a legal layout the known one, where it is cheaper or none was known; answers whether it did.
    pub fn find(&mut self, site: &Site, layout: &Layout) -> bool
        requires legal { IsLegal site.now layout.now }
        ensures finds { IsTrue result → (arcs : List AnArc) (n : ℕ) (items : List Item) → IsSearching site.now arcs n self.old → Finds site.now (core_of items self.old) layout.now (core_of items self.new) }
        ensures dearer { result ≡ false → (arcs : List AnArc) (n : ℕ) → IsSearching site.now arcs n self.old → ¬ (IsBelowKnown site.now (known_by self.old.known self.old.best) (cost_of site.now layout.now)) }
        ensures same { result ≡ false → self.new ≡ self.old }
        ensures searching { (arcs : List AnArc) (n : ℕ) → IsSearching site.now arcs n self.old → IsSearching site.now arcs n self.new }
    {
        match judge(site, layout) {
            // A legal layout breaks no rule.
            Verdict::Broken(..) => unreachable!(),
            Verdict::Legal(cost) => {
                if is_beaten(self.known, i128::from(cost)) {
                    return false;
                }
                self.best.replace(layout.cables());
                self.known = Some(cost);
                true
            }
        }
    }

    /// How the search ended; none where it hasn't.
    pub fn ended(&self) -> Option<Ended>
        ensures closed { (s : ASite) (arcs : List AnArc) (n : ℕ) (items : List Item) → IsSearching s arcs n self.now → (result ≡ Some Ended.Closed) ↔ IsClosed s (core_of items self.now) }
        ensures spent { (s : ASite) (arcs : List AnArc) (n : ℕ) (items : List Item) → IsSearching s arcs n self.now → (result ≡ Some Ended.Budget) ↔ IsSpent s n (core_of items self.now) }
    {
        match self.next() {
            None => match held_count(self.lanes.as_slice()) {
                0 => Some(Ended::Closed),
                _ => None,
            },
            Some(_) => {
                if self.tree.works() < self.budget {
                    return None;
                }
                Some(Ended::Budget)
            }
        }
    }
}
