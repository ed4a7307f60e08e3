//! Full nodes.

ghost use Rattle.std.specs.Prelude.{◌≡◌, ◌≤◌, ◌↔◌, ℕ, List, IsTrue, slice_get, Some};
ghost use Rattle.cable_definitions.specs.declared.cable.Arc.{Arc};
ghost use Rattle.cable_definitions.specs.declared.cable.Cable.{Cable};
ghost use Rattle.cable_definitions.specs.declared.row.Mark.{Mark};
ghost use Rattle.cable_definitions.specs.declared.row.Mark.TheVariants.{Used};
ghost use Rattle.cable_definitions.specs.declared.row.Why.{Why};
ghost use Rattle.cable_definitions.specs.Site.{Site, IsValid};
ghost use Rattle.cable_definitions.specs.Arcs.{AreArcs};
ghost use Rattle.cable_definitions.specs.Layout.{IsLegal, cost};
ghost use Rattle.cable_definitions.specs.Part.{AreCheapTyped};
ghost use Rattle.cable_definitions.specs.Row.{Row, has_arc};
ghost use Rattle.cable_definitions.specs.Choice.{IsInBox};
ghost use Rattle.cable_definitions.specs.Tree.{used_cables, IsDead, IsFull};
ghost use Rattle.proof_laws.specs.Decided.{AreDecided, HasPointRows};

/// A node is full exactly where its used cables with their cheapest types are a legal layout, and then that is the full layout.
pub fn full_layout_is_cheap_typed()
    ensures cheapest { (s : Site) (arcs : List Arc) (marks : List Mark) (full : List Cable) → IsFull s arcs marks full
        → AreCheapTyped s (used_cables arcs marks) full × IsLegal s full }
    ensures full { (s : Site) (arcs : List Arc) (marks : List Mark) (cheap : List Cable) → AreCheapTyped s (used_cables arcs marks) cheap
        → IsLegal s cheap → IsFull s arcs marks cheap }
    ensures one { (s : Site) (arcs : List Arc) (marks : List Mark) (xs ys : List Cable) → IsFull s arcs marks xs → IsFull s arcs marks ys
        → xs ≡ ys }
{}

/// Where a node is full, each legal layout in its box has exactly the arcs marked used, and costs at least as much as the full layout.
pub fn full_node_is_alone()
    ensures arcs { (s : Site) (arcs : List Arc) (marks : List Mark) (full cables : List Cable) → AreArcs s arcs → IsFull s arcs marks full
        → IsLegal s cables → IsInBox arcs marks cables
        → (k : ℕ) (a : Arc) → slice_get arcs k ≡ Some a → IsTrue (has_arc cables a) ↔ (slice_get marks k ≡ Some Used) }
    ensures cost { (s : Site) (arcs : List Arc) (marks : List Mark) (full cables : List Cable) → IsFull s arcs marks full
        → IsLegal s cables → IsInBox arcs marks cables → cost s full ≤ cost s cables }
{}

/// Where all arcs are decided and all well-formed `Out`, `Inlet` and `Bend` rows are listed, a node of which no reason is true is full.
pub fn dead_or_full()
    ensures { (s : Site) (arcs : List Arc) (rows : List Row) (marks : List Mark) (bound : ℕ) → IsValid s → AreArcs s arcs
        → AreDecided arcs marks → HasPointRows s arcs rows → ((why : Why) → ¬ (IsDead s arcs rows marks bound why))
        → (full : List Cable) × IsFull s arcs marks full }
{}
