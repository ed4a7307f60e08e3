//! Points by their names.

ghost use Rattle.std.specs.Prelude.{◌≡◌, ◌≢◌, ℕ, IfSome, IfNone, IsTrue};
ghost use Rattle.cable_definitions.specs.declared.claim.Claim.{Claim as AnyClaim};
ghost use Rattle.cable_definitions.specs.Arcs.{kind_of, is_turbine};
ghost use Rattle.cable_definitions.specs.Text.{name_of};
ghost use Rattle.cable_definitions.specs.Refusal.{IsClaimOf};
ghost use Rattle.line_words.specs.Judged.{verdict_of};

use cable_definitions::claim::Claim;
use line_words::NamedClaim;
use site_model::Site;

/// The number of the turbine with this name.
fn turbine_named(site: &Site, name: &[u8]) -> Option<u32>
    ensures some { IfSome result (λ p. IsTrue (is_turbine (kind_of site.now p)) × (name_of site.now p ≡ name.now)) }
    ensures none { IfNone result ((p : ℕ) → IsTrue (is_turbine (kind_of site.now p)) → name_of site.now p ≢ name.now) }
{
    let Some(number) = site.number_of(name) else {
        return None;
    };
    if site.kind(number).is_turbine() {
        return Some(number);
    }
    None
}

/// The claim of a verdict; none where it names no turbine of the site.
pub fn claim_named(site: &Site, claim: NamedClaim) -> Option<Claim>
    ensures some { IfSome result (λ c. IsClaimOf site.now (verdict_of claim.entry) c) }
    ensures none { IfNone result ((c : AnyClaim) → ¬ (IsClaimOf site.now (verdict_of claim.entry) c)) }
{
    match claim {
        NamedClaim::Optimal(cost) => Some(Claim::Optimal(cost)),
        NamedClaim::Gap { cost, bound } => Some(Claim::Gap { cost, bound }),
        NamedClaim::Open { bound, stuck } => {
            let stuck = turbine_named(site, stuck)?;
            Some(Claim::Partial { bound, stuck })
        }
        NamedClaim::Infeasible => Some(Claim::Infeasible),
    }
}
