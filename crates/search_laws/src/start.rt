//! Where a search begins.

ghost use Rattle.std.specs.Prelude.{ℕ, List};
ghost use Rattle.cable_definitions.specs.declared.cable.Arc.{Arc};
ghost use Rattle.cable_definitions.specs.Site.{Site, IsValid};
ghost use Rattle.cable_definitions.specs.Core.{first_core};
ghost use Rattle.search_laws.specs.Cores.{IsCore};

/// What holds of every state that a search reaches holds of its first one, whatever the budget and the number of lanes.
pub fn searches_begin()
    ensures { (s : Site) (arcs : List Arc) (n lanes : ℕ) → IsValid s → IsCore s arcs n (first_core s lanes) }
{}
