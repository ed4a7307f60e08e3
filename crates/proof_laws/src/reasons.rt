//! Reasons for dead nodes.

ghost use Rattle.std.specs.Prelude.{◌≤◌, ℕ, List, All};
ghost use Rattle.cable_definitions.specs.declared.cable.Arc.{Arc};
ghost use Rattle.cable_definitions.specs.declared.cable.Cable.{Cable};
ghost use Rattle.cable_definitions.specs.declared.row.Mark.{Mark};
ghost use Rattle.cable_definitions.specs.declared.row.Why.{Why};
ghost use Rattle.cable_definitions.specs.declared.row.Why.TheVariants.{Row as RowWhy, Pair, Load, Loop, Power, Ceiling};
ghost use Rattle.cable_definitions.specs.Site.{Site, IsValid};
ghost use Rattle.cable_definitions.specs.Arcs.{AreArcs};
ghost use Rattle.cable_definitions.specs.Layout.{IsLegal, cost};
ghost use Rattle.cable_definitions.specs.Row.{Row, IsWellFormed};
ghost use Rattle.cable_definitions.specs.Choice.{IsInBox};
ghost use Rattle.cable_definitions.specs.Tree.{IsDead, ceiling};

/// Where a row can't be met, two used arcs are incompatible, a used cable or a substation would take too much, or a used walk returns, no legal
/// layout lies in the box; the listed rows are well formed.
pub fn no_layout_in_box()
    ensures row { (s : Site) (arcs : List Arc) (rows : List Row) (marks : List Mark) (bound r : ℕ) → IsValid s → AreArcs s arcs
        → All (IsWellFormed s arcs) rows → IsDead s arcs rows marks bound (RowWhy r)
        → (cables : List Cable) → IsLegal s cables → ¬ (IsInBox arcs marks cables) }
    ensures pair { (s : Site) (arcs : List Arc) (rows : List Row) (marks : List Mark) (bound a b : ℕ)
        → IsDead s arcs rows marks bound (Pair a b) → (cables : List Cable) → IsLegal s cables → ¬ (IsInBox arcs marks cables) }
    ensures load { (s : Site) (arcs : List Arc) (rows : List Row) (marks : List Mark) (bound p : ℕ)
        → IsDead s arcs rows marks bound (Load p) → (cables : List Cable) → IsLegal s cables → ¬ (IsInBox arcs marks cables) }
    ensures returning { (s : Site) (arcs : List Arc) (rows : List Row) (marks : List Mark) (bound p : ℕ)
        → IsDead s arcs rows marks bound (Loop p) → (cables : List Cable) → IsLegal s cables → ¬ (IsInBox arcs marks cables) }
    ensures power { (s : Site) (arcs : List Arc) (rows : List Row) (marks : List Mark) (bound p : ℕ)
        → IsDead s arcs rows marks bound (Power p) → (cables : List Cable) → IsLegal s cables → ¬ (IsInBox arcs marks cables) }
{}

/// A legal layout costs at most the ceiling, so none lies in a box where each would cost more.
pub fn no_layout_above_ceiling()
    ensures cost { (s : Site) (arcs : List Arc) (cables : List Cable) → AreArcs s arcs → IsLegal s cables → cost s cables ≤ ceiling s arcs }
    ensures dead { (s : Site) (arcs : List Arc) (rows : List Row) (marks : List Mark) (bound : ℕ) → AreArcs s arcs
        → ((cables : List Cable) → IsLegal s cables → IsInBox arcs marks cables → bound ≤ cost s cables)
        → IsDead s arcs rows marks bound Ceiling → (cables : List Cable) → IsLegal s cables → ¬ (IsInBox arcs marks cables) }
{}

/// Where any reason is true of a node whose bound holds in its box, no legal layout lies there.
pub fn dead_boxes_are_empty()
    ensures { (s : Site) (arcs : List Arc) (rows : List Row) (marks : List Mark) (bound : ℕ) (why : Why) → IsValid s → AreArcs s arcs
        → All (IsWellFormed s arcs) rows
        → ((cables : List Cable) → IsLegal s cables → IsInBox arcs marks cables → bound ≤ cost s cables)
        → IsDead s arcs rows marks bound why → (cables : List Cable) → IsLegal s cables → ¬ (IsInBox arcs marks cables) }
{}
