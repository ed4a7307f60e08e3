//! Values of weights.

ghost use Rattle.std.specs.Prelude.{◌≡◌, ℕ, ◌*◌, ◌^◌, ℤ, pos, ◌≤ℤ◌, List, All};
ghost use Rattle.cable_definitions.specs.declared.cable.Arc.{Arc};
ghost use Rattle.cable_definitions.specs.declared.cable.Cable.{Cable};
ghost use Rattle.cable_definitions.specs.declared.row.Mark.{Mark};
ghost use Rattle.cable_definitions.specs.Site.{Site, IsValid};
ghost use Rattle.cable_definitions.specs.Arcs.{AreArcs};
ghost use Rattle.cable_definitions.specs.Budget.{IsNearest};
ghost use Rattle.cable_definitions.specs.Layout.{IsLegal, cost};
ghost use Rattle.cable_definitions.specs.Row.{Row, IsWellFormed};
ghost use Rattle.cable_definitions.specs.Choice.{IsInBox, AreLawful, IsValue};
ghost use Rattle.proof_laws.specs.OutWeights.{AreOutWeights, AreNearestWeights};

/// Lawful weights on well-formed rows give a bound: their value in a box, over 2^20, is at most the cost of each legal layout there.
pub fn values_are_bounds()
    ensures { (s : Site) (arcs : List Arc) (rows : List Row) (marks : List Mark) (weights : List (ℕ × ℤ)) (value : ℤ) (cables : List Cable) → IsValid s
        → AreArcs s arcs → All (IsWellFormed s arcs) rows → AreLawful rows weights → IsValue s arcs rows marks weights value → IsLegal s cables
        → IsInBox arcs marks cables → value ≤ℤ pos (2 ^ 20 * cost s cables) }
{}

/// Weights have at most one value in a box.
pub fn values_are_determined()
    ensures { (s : Site) (arcs : List Arc) (rows : List Row) (marks : List Mark) (weights : List (ℕ × ℤ)) (value other : ℤ)
        → IsValue s arcs rows marks weights value → IsValue s arcs rows marks weights other → value ≡ other }
{}

/// Where each turbine's `Out` rows weigh at least 2^20 times the least cost out of it, and at most 2^20 times the cost of each arc out of it that
/// isn't marked unused, the value is at least 2^20 times the sum of the least costs out of the turbines.
pub fn values_reach_nearest()
    ensures { (s : Site) (arcs : List Arc) (rows : List Row) (marks : List Mark) (weights : List (ℕ × ℤ)) (value : ℤ) (nearest : ℕ)
        → AreOutWeights s arcs rows marks weights → IsValue s arcs rows marks weights value → IsNearest s nearest
        → pos (2 ^ 20 * nearest) ≤ℤ value }
{}

/// One weight on the `Out` row of each turbine, 2^20 times the least cost out of it, makes such weights in every box, so their value is at least
/// 2^20 times the sum of the least costs out of the turbines.
pub fn nearest_weights_reach()
    ensures weights { (s : Site) (arcs : List Arc) (rows : List Row) (marks : List Mark) (weights : List (ℕ × ℤ)) → AreArcs s arcs
        → All (IsWellFormed s arcs) rows → AreNearestWeights s rows weights → AreOutWeights s arcs rows marks weights }
    ensures value { (s : Site) (arcs : List Arc) (rows : List Row) (marks : List Mark) (weights : List (ℕ × ℤ)) (value : ℤ) (nearest : ℕ) → AreArcs s arcs
        → All (IsWellFormed s arcs) rows → AreNearestWeights s rows weights → IsValue s arcs rows marks weights value → IsNearest s nearest
        → pos (2 ^ 20 * nearest) ≤ℤ value }
{}
