//! The loads of cables.

ghost use Rattle.std.specs.Prelude.{◌≡◌, ℕ, ◌+◌, ◌<◌, ◌≤◌, List, length, All, AllPairs, IsTrue, ◌&&◌, not, if◌then◌else◌, sum_by};
ghost use Rattle.std.specs.List.{enumerate_from};
ghost use Rattle.cable_definitions.specs.declared.cable.Cable.{Cable};
ghost use Rattle.cable_definitions.specs.declared.site.Kind.TheVariants.{Bend};
ghost use Rattle.cable_definitions.specs.declared.site.Point.{Point};
ghost use Rattle.cable_definitions.specs.Site.{Site, IsValid};
ghost use Rattle.cable_definitions.specs.Arcs.{IsPoint, kind_of, is_turbine, is_substation, power_of};
ghost use Rattle.cable_definitions.specs.Walk.{passes, load, load_into};
ghost use Rattle.cable_definitions.specs.Layout.{Starts, IsLegal};
ghost use Rattle.cable_definitions.specs.Row.{is_member};
ghost use Rattle.layout_laws.specs.Alike.{StartsDiffer};
ghost use Rattle.layout_laws.specs.Visits.{WalksEnd};

/// Where no start comes twice and all walks end, what leaves a point is what it feeds in and what comes to it; and what comes to a substation
/// is what the turbines feed in whose walk passes it.
pub fn conservation()
    ensures points { (s : Site) (cables : List Cable) → StartsDiffer cables → WalksEnd cables
        → (p : ℕ) → load s cables p ≡ power_of s p + load_into s cables p }
    ensures substations { (s : Site) (cables : List Cable) → StartsDiffer cables → WalksEnd cables
        → (p : ℕ) → IsTrue (is_substation (kind_of s p)) → load_into s cables p ≡ load s cables p }
{}

/// A cable out of a point carries at least the power of each turbine whose walk passes that point, so at least the point's own power.
pub fn least_loads()
    ensures passed { (s : Site) (cables : List Cable) (p t : ℕ) → IsTrue (passes cables p t) → power_of s t ≤ load s cables p }
    ensures own { (s : Site) (cables : List Cable) (p : ℕ) → power_of s p ≤ load s cables p }
{}

/// In a legal layout the walk of some turbine passes each bend that starts a cable, so that cable carries something.
pub fn loads_of_bends()
    ensures fed { (s : Site) (cables : List Cable) → IsLegal s cables
        → (p : ℕ) (point : Point) → IsPoint s p point → point.kind ≡ Bend → Starts cables p
        → (t : ℕ) × (IsTrue (is_turbine (kind_of s t))) × (IsTrue (passes cables p t)) }
    ensures carries { (s : Site) (cables : List Cable) → IsValid s → IsLegal s cables
        → (p : ℕ) (point : Point) → IsPoint s p point → point.kind ≡ Bend → Starts cables p → 1 ≤ load s cables p }
{}

/// In a legal layout what the turbines of a set without substations feed in is at most what the cables bear that leave the set.
pub fn loads_out_of_sets()
    ensures { (s : Site) (cables : List Cable) (members : List ℕ) → IsLegal s cables → AllPairs (λ m n. m < n) members
        → All (λ m. m < length s.points) members → All (λ m. ¬ (IsTrue (is_substation (kind_of s m)))) members
        → sum_by (power_of s) members
        ≤ sum_by (λ c. if is_member members c.from && not (is_member members c.to) then load s cables c.from else 0) cables }
{}

/// In a legal layout what comes to the substations is all that the turbines feed in.
pub fn loads_into_substations()
    ensures { (s : Site) (cables : List Cable) → IsLegal s cables
        → sum_by (λ q. if is_substation (kind_of s q.0) then load_into s cables q.0 else 0) (enumerate_from 0 s.points)
        ≡ sum_by (λ q. power_of s q.0) (enumerate_from 0 s.points) }
{}
