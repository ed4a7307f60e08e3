//! What a search ends with.

ghost use Rattle.std.specs.Prelude.{◌≡◌, ◌^◌, pos, ◌≤ℤ◌, ◌<ℤ◌, unsigned_abs};
ghost use Rattle.search_parts.specs.Start.{IsClaimedOf, IsPart, IsPartPlan};

use crate::start::Incumbent;
use cable_definitions::claim::Claim;
use layout_meaning::Layout;

/// Cables in ascending order of start, and what is claimed of them: a settled layout with a cost that is optimal, or that lies above
/// a bound by a gap; a grown part with a turbine that can't be joined to it, and a bound; or no cable, where the site has no legal layout.
#[derive(Drop)]
pub struct Plan {
    pub layout: Layout,
    pub claim: Claim,
}

/// The claim of a part to which this turbine can't be joined. The bound is in cost units.
fn part_claim(bound: i128, stuck: u32) -> Claim
    requires not_negative { pos 0 ≤ℤ bound }
    requires small { bound <ℤ pos (2 ^ 64) }
    ensures { result ≡ Claim.Partial (unsigned_abs bound) stuck }
{
    Claim::Partial {
        bound: bound as u64,
        stuck,
    }
}

/// The part with which a search began that knows no layout, with its claim. The bound is in cost units.
pub fn part_plan(bound: i128, start: Incumbent) -> Plan
    requires part { IsPart start }
    requires not_negative { pos 0 ≤ℤ bound }
    requires small { bound <ℤ pos (2 ^ 64) }
    ensures { IsPartPlan start (unsigned_abs bound) result.layout result.claim }
{
    match start {
        Incumbent::Part { part, turbine } => Plan {
            layout: part,
            claim: part_claim(bound, turbine),
        },
        // A search that begins with a layout knows one.
        Incumbent::Known(_) => unreachable!(),
    }
}

/// The claim that a cost is optimal, where the bound reaches it, or else of the gap between them, each in cost units.
pub fn claim_of(cost: u64, bound: i128) -> Claim
    requires { pos 0 ≤ℤ bound }
    ensures { IsClaimedOf cost (unsigned_abs bound) result }
{
    if bound < i128::from(cost) {
        Claim::Gap {
            cost,
            bound: bound as u64,
        }
    } else {
        Claim::Optimal(cost)
    }
}
