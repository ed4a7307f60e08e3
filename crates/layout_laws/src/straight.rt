//! The nearest arcs out of the turbines, and the layout that joins each turbine straight to a substation.

ghost use Rattle.std.specs.Prelude.{◌≡◌, ℕ, ◌≤◌, List, length, IsTrue, Some};
ghost use Rattle.cable_definitions.specs.declared.cable.Arc.{Arc};
ghost use Rattle.cable_definitions.specs.declared.cable.Cable.{Cable};
ghost use Rattle.cable_definitions.specs.Site.{Site};
ghost use Rattle.cable_definitions.specs.Arcs.{IsCandidate, kind_of, is_turbine, is_substation, power_of, AreArcs};
ghost use Rattle.cable_definitions.specs.Walk.{cable_out, starts_in, load};
ghost use Rattle.cable_definitions.specs.Layout.{IsCable, KeepsEnd, IsLegal, Least, HasNone};
ghost use Rattle.cable_definitions.specs.Budget.{IsNearest};
ghost use Rattle.cable_definitions.specs.Part.{IsStraight};

/// In a legal layout exactly one cable starts in each turbine, so a site with a turbine without a candidate arc has no legal layout.
pub fn cables_out_of_turbines()
    ensures one { (s : Site) (cables : List Cable) → IsLegal s cables → (p : ℕ) → IsTrue (is_turbine (kind_of s p)) → starts_in cables p ≡ 1 }
    ensures none { (s : Site) (p : ℕ) → IsTrue (is_turbine (kind_of s p)) → ((q : ℕ) → ¬ (IsCandidate s p q)) → HasNone s }
{}

/// Every legal layout costs at least the sum of the least costs out of the turbines, each at the turbine's own power. There is one such sum
/// where each turbine has a candidate arc.
pub fn nearest_arcs()
    ensures least { (s : Site) (total : ℕ) → IsNearest s total → Least s total }
    ensures exists { (s : Site) (arcs : List Arc) → 1 ≤ length s.types → AreArcs s arcs
        → ((p : ℕ) → IsTrue (is_turbine (kind_of s p)) → (q : ℕ) × IsCandidate s p q) → (total : ℕ) × IsNearest s total }
    ensures unique { (s : Site) (a b : ℕ) → IsNearest s a → IsNearest s b → a ≡ b }
{}

/// Where each turbine has a candidate arc to a substation there is a straight layout, and no other.
pub fn straight_layout()
    ensures exists { (s : Site) (arcs : List Arc) → 1 ≤ length s.types → AreArcs s arcs
        → ((p : ℕ) → IsTrue (is_turbine (kind_of s p)) → (q : ℕ) × (IsCandidate s p q) × (IsTrue (is_substation (kind_of s q))))
        → (cables : List Cable) × IsStraight s cables }
    ensures unique { (s : Site) (xs ys : List Cable) → IsStraight s xs → IsStraight s ys → xs ≡ ys }
{}

/// In a straight layout the first cable out of each turbine is a candidate arc to a substation, so no walk is lost and each cable carries its
/// start's own power.
pub fn loads_of_straight_layouts()
    ensures outs { (s : Site) (cables : List Cable) → IsStraight s cables → (p : ℕ) → IsTrue (is_turbine (kind_of s p))
        → (c : Cable) × (cable_out cables p ≡ Some c) × (IsCandidate s p c.to) × (IsTrue (is_substation (kind_of s c.to))) }
    ensures ends { (s : Site) (cables : List Cable) → IsStraight s cables → (p : ℕ) → KeepsEnd s cables p }
    ensures points { (s : Site) (cables : List Cable) → IsStraight s cables → (p : ℕ) → ¬ (IsTrue (is_substation (kind_of s p)))
        → load s cables p ≡ power_of s p }
    ensures cables { (s : Site) (cables : List Cable) → IsStraight s cables → (i : ℕ) (c : Cable) → IsCable cables i c
        → load s cables c.from ≡ power_of s c.from }
{}
