//! The costs of cables at different loads.

ghost use Rattle.std.specs.Prelude.{ℕ, ◌≤◌, List};
ghost use Rattle.cable_definitions.specs.declared.cable.Cable.{Cable};
ghost use Rattle.cable_definitions.specs.declared.site.CableType.{CableType};
ghost use Rattle.cable_definitions.specs.Site.{Site};
ghost use Rattle.cable_definitions.specs.Arcs.{IsCandidate, power_of, cost_by, cost_of, Bears, IsCheapest};
ghost use Rattle.cable_definitions.specs.Walk.{load};
ghost use Rattle.cable_definitions.specs.Layout.{IsCable, KeepsRange, KeepsCandidate, KeepsCapacity};
ghost use Rattle.cable_definitions.specs.Budget.{IsLeastOut};

/// A cable of one type costs no less at a greater load, and fewer types bear that load.
pub fn costs_of_greater_loads()
    ensures by_type { (length : ℕ) (t : CableType) (low high charge : ℕ) → low ≤ high
        → cost_by length t low charge ≤ cost_by length t high charge }
    ensures of_type { (s : Site) (from to grade low high : ℕ) → low ≤ high → cost_of s from to grade low ≤ cost_of s from to grade high }
    ensures bears { (s : Site) (grade low high : ℕ) → low ≤ high → Bears s grade high → Bears s grade low }
{}

/// So the least cost over the types that bear a load is no less at a greater load.
pub fn least_costs_of_greater_loads()
    ensures cheapest { (s : Site) (from to low high grade other : ℕ) → low ≤ high → IsCheapest s from to low grade
        → IsCheapest s from to high other → cost_of s from to grade low ≤ cost_of s from to other high }
    ensures least_out { (s : Site) (from to grade load least : ℕ) → IsLeastOut s from least → IsCandidate s from to
        → power_of s from ≤ load → Bears s grade load → least ≤ cost_of s from to grade load }
{}

/// A cable whose type bears its load costs at least what the cheapest type costs at its start's own power, and at least the least cost out of
/// its start.
pub fn least_costs_of_cables()
    ensures cheapest { (s : Site) (cables : List Cable) → ((i : ℕ) → KeepsRange s cables i) → ((p : ℕ) → KeepsCapacity s cables p)
        → (i : ℕ) (c : Cable) → IsCable cables i c → (grade : ℕ) → IsCheapest s c.from c.to (power_of s c.from) grade
        → cost_of s c.from c.to grade (power_of s c.from) ≤ cost_of s c.from c.to c.grade (load s cables c.from) }
    ensures least_out { (s : Site) (cables : List Cable) → ((i : ℕ) → KeepsRange s cables i) → ((i : ℕ) → KeepsCandidate s cables i)
        → ((p : ℕ) → KeepsCapacity s cables p) → (i : ℕ) (c : Cable) → IsCable cables i c → (least : ℕ) → IsLeastOut s c.from least
        → least ≤ cost_of s c.from c.to c.grade (load s cables c.from) }
{}
