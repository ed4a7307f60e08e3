//! What a search does.

ghost use Rattle.std.specs.Prelude.{◌≡◌, ◌≢◌, ◌⊎◌, ◌≤◌, ℕ, List, Some};
ghost use Rattle.cable_definitions.specs.declared.cable.Arc.{Arc};
ghost use Rattle.cable_definitions.specs.declared.cable.Cable.{Cable};
ghost use Rattle.cable_definitions.specs.Site.{Site, IsValid};
ghost use Rattle.cable_definitions.specs.Arcs.{AreArcs};
ghost use Rattle.cable_definitions.specs.Layout.{cost};
ghost use Rattle.cable_definitions.specs.Tree.{Unworked, WasDead, Node, Item, ProofState, node_of, IsAccepted};
ghost use Rattle.cable_definitions.specs.Core.{Core, Event, Steps, Runs, first_core};
ghost use Rattle.search_laws.specs.Cores.{IsCore};

/// Each step of a search, and so each run, leads from a state of which this holds to one of which it holds, whatever the events; so it holds of every
/// state that a run reaches from the first one.
pub fn steps_keep_states()
    ensures step { (s : Site) (arcs : List Arc) (n : ℕ) (old new : Core) (event : Event) → IsValid s → AreArcs s arcs
        → IsCore s arcs n old → Steps s arcs n old event new → IsCore s arcs n new }
    ensures run { (s : Site) (arcs : List Arc) (n : ℕ) (old new : Core) (events : List Event) → IsValid s → AreArcs s arcs
        → IsCore s arcs n old → Runs s arcs n old events new → IsCore s arcs n new }
    ensures reached { (s : Site) (arcs : List Arc) (n lanes : ℕ) (events : List Event) (core : Core) → IsValid s → AreArcs s arcs
        → Runs s arcs n (first_core s lanes) events core → IsCore s arcs n core }
{}

/// Where a layout is known, one is known after each step and each run, and it costs no more.
pub fn known_costs_fall()
    ensures step { (s : Site) (arcs : List Arc) (n : ℕ) (old new : Core) (event : Event) (cables : List Cable)
        → Steps s arcs n old event new → old.known ≡ Some cables
        → (better : List Cable) × (new.known ≡ Some better) × (cost s better ≤ cost s cables) }
    ensures run { (s : Site) (arcs : List Arc) (n : ℕ) (old new : Core) (events : List Event) (cables : List Cable)
        → Runs s arcs n old events new → old.known ≡ Some cables
        → (better : List Cable) × (new.known ≡ Some better) × (cost s better ≤ cost s cables) }
{}

/// Where node 1 is worked and its bound is at least m, or it is dead, each made node other than a dead node 1 has a bound of at least m.
pub fn bounds_rise_from_first()
    ensures { (s : Site) (arcs : List Arc) (n m : ℕ) (items : List Item) (kept : ProofState) (first : Node) → IsValid s → AreArcs s arcs
        → IsAccepted s arcs n items kept → node_of kept.nodes 1 ≡ Some first → first.status ≢ Unworked
        → (first.status ≡ WasDead) ⊎ (m ≤ first.bound)
        → (v : ℕ) (node : Node) → node_of kept.nodes v ≡ Some node → (v ≡ 1 → node.status ≢ WasDead) → m ≤ node.bound }
{}
