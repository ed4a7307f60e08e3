//! Where a search ends.

ghost use Rattle.std.specs.Prelude.{◌≡◌, ◌≢◌, ◌⊎◌, ◌≤◌, ◌<◌, ◌^◌, ℕ, List, [], slice_get, Some, None};
ghost use Rattle.cable_definitions.specs.declared.cable.Arc.{Arc};
ghost use Rattle.cable_definitions.specs.declared.cable.Cable.{Cable};
ghost use Rattle.cable_definitions.specs.declared.claim.Claim.TheVariants.{Optimal, Gap, Partial, Infeasible};
ghost use Rattle.cable_definitions.specs.Site.{Site, IsValid};
ghost use Rattle.cable_definitions.specs.Arcs.{AreArcs};
ghost use Rattle.cable_definitions.specs.Budget.{enough_budget};
ghost use Rattle.cable_definitions.specs.Layout.{cost};
ghost use Rattle.cable_definitions.specs.Part.{IsBlocked};
ghost use Rattle.cable_definitions.specs.Tree.{Unworked, Node, node_of, ceiling, IsLeastBound, AllDead, Agrees};
ghost use Rattle.cable_definitions.specs.Core.{Core, Take, IsPossible, IsClosed, IsSpent, held_count};
ghost use Rattle.run_definitions.specs.Plan.{HasIsolatedTurbine};
ghost use Rattle.search_laws.specs.Cores.{IsStoppedOrFull, IsCore};

/// A closed search has decided all: where a layout is known its cost is the least bound over the open leaves, and where none is known every leaf is
/// dead.
pub fn closed_searches_decide()
    ensures known { (s : Site) (arcs : List Arc) (n : ℕ) (core : Core) (cables : List Cable) → IsValid s → AreArcs s arcs
        → IsCore s arcs n core → IsClosed s core → core.known ≡ Some cables → IsLeastBound core.kept (cost s cables) }
    ensures unknown { (s : Site) (arcs : List Arc) (n : ℕ) (core : Core) → IsCore s arcs n core → IsClosed s core → core.known ≡ None
        → AllDead core.kept }
{}

/// A search with no node held is closed, or its budget is spent, or each empty lane can take a node.
pub fn searches_go_on()
    ensures ends { (s : Site) (arcs : List Arc) (n : ℕ) (core : Core) → IsCore s arcs n core → held_count core ≡ 0
        → IsClosed s core ⊎ (IsSpent s n core ⊎ ((lane : ℕ) → slice_get core.lanes lane ≡ Some None → IsPossible s n core (Take lane))) }
    ensures goes_on { (s : Site) (arcs : List Arc) (n : ℕ) (core : Core) (lane : ℕ) → IsCore s arcs n core → held_count core ≡ 0
        → ¬ (IsClosed s core) → ¬ (IsSpent s n core) → slice_get core.lanes lane ≡ Some None → IsPossible s n core (Take lane) }
{}

/// A budget that is enough for the site's candidate arcs is never spent.
pub fn enough_is_never_spent()
    ensures { (s : Site) (arcs : List Arc) (n : ℕ) (core : Core) → IsValid s → AreArcs s arcs → IsCore s arcs n core → enough_budget arcs ≤ n
        → ¬ (IsSpent s n core) }
{}

/// Where no candidate arc leads out of some turbine, one work closes the search, and all leaves are dead.
pub fn isolated_turbines_end_searches()
    ensures closed { (s : Site) (arcs : List Arc) (n : ℕ) (core : Core) → IsValid s → AreArcs s arcs → IsCore s arcs n core → HasIsolatedTurbine s
        → 1 ≤ core.kept.works → IsClosed s core }
    ensures dead { (s : Site) (arcs : List Arc) (n : ℕ) (core : Core) → IsValid s → AreArcs s arcs → IsCore s arcs n core → HasIsolatedTurbine s
        → 1 ≤ core.kept.works → AllDead core.kept }
{}

/// Where a node was stopped or is full, a layout is known that costs no more than the node's bound.
pub fn stopped_and_full_nodes_are_beaten()
    ensures { (s : Site) (arcs : List Arc) (n : ℕ) (core : Core) (v : ℕ) (node : Node) → IsCore s arcs n core → node_of core.kept.nodes v ≡ Some node
        → IsStoppedOrFull node → (cables : List Cable) × (core.known ≡ Some cables) × (cost s cables ≤ node.bound) }
{}

/// The least bound over the open leaves is at most the ceiling, and so below 2^63, as is the bound of each node that isn't worked.
pub fn least_bounds_are_small()
    ensures capped { (s : Site) (arcs : List Arc) (n : ℕ) (core : Core) (bound : ℕ) → IsValid s → AreArcs s arcs → IsCore s arcs n core
        → IsLeastBound core.kept bound → bound ≤ ceiling s arcs }
    ensures least { (s : Site) (arcs : List Arc) (n : ℕ) (core : Core) (bound : ℕ) → IsValid s → AreArcs s arcs → IsCore s arcs n core
        → IsLeastBound core.kept bound → bound < 2 ^ 63 }
    ensures unworked { (s : Site) (arcs : List Arc) (n : ℕ) (core : Core) (v : ℕ) (node : Node) → IsValid s → IsCore s arcs n core
        → node_of core.kept.nodes v ≡ Some node → node.status ≡ Unworked → node.bound < 2 ^ 63 }
{}

/// The claim that a search ends with: where it is closed, that its known layout is optimal or that there is none; where its budget is spent, the gap
/// to the known layout, or the least bound beside a part that is blocked.
pub fn ended_searches_claim()
    ensures optimal { (s : Site) (arcs : List Arc) (n : ℕ) (core : Core) (cables : List Cable) → IsValid s → AreArcs s arcs
        → IsCore s arcs n core → IsClosed s core → core.known ≡ Some cables → Agrees s n core.kept cables (Optimal (cost s cables)) }
    ensures infeasible { (s : Site) (arcs : List Arc) (n : ℕ) (core : Core) → IsCore s arcs n core → IsClosed s core → core.known ≡ None
        → Agrees s n core.kept [] Infeasible }
    ensures gap { (s : Site) (arcs : List Arc) (n : ℕ) (core : Core) (cables : List Cable) (bound : ℕ) → IsCore s arcs n core → IsSpent s n core
        → core.known ≡ Some cables → IsLeastBound core.kept bound → Agrees s n core.kept cables (Gap (cost s cables) bound) }
    ensures partial { (s : Site) (n : ℕ) (core : Core) (part : List Cable) (stuck bound : ℕ) → IsSpent s n core → IsBlocked s part stuck
        → IsLeastBound core.kept bound → Agrees s n core.kept part (Partial bound stuck) }
{}
