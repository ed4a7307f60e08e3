//! Judging a list of cables by the eleven rules.

ghost use Rattle.std.specs.Prelude.{◌≡◌, ◌≤◌, length};
ghost use Rattle.layout_meaning.specs.Verdict.{IsVerdict};

use crate::breach::{Breach, breach_of_cables, breach_of_farm};
use crate::costs::total_cost;
use crate::ends::first_unjoined;
use crate::flows::Flows;
use crate::layout::Layout;
use crate::outgoing::Outgoing;
use cable_definitions::cable::{Cable, Rule};
use site_model::Site;

/// What is found of a list of cables: a legal layout, with its cost in cost units; or the first broken rule at its first place, with the
/// two numbers that it names. These are the cable's place in the list twice for `Range`, a cable's start and end for `Candidate` and
/// `Overload`, the two starts, the lower one first, for `Clash`, and else a point's number twice.
#[derive(Clone, Copy, Debug, PartialEq, Eq)]
pub enum Verdict {
    Legal(u64),
    Broken(Rule, u32, u32),
}

/// The verdict of a broken rule.
fn broken(breach: Breach) -> Verdict
    ensures { result ≡ Verdict.Broken breach.rule breach.a breach.b }
{
    Verdict::Broken(breach.rule, breach.a, breach.b)
}

/// Judges a list of at most 256 cables by the eleven rules. It takes no memory.
pub fn judge_cables(site: &Site, cables: &[Cable]) -> Verdict
    requires { length cables.now ≤ 256 }
    ensures { IsVerdict site.now cables.now result }
{
    if let Some(breach) = breach_of_cables(site, cables) {
        return broken(breach);
    }
    let outgoing = Outgoing::new(cables);
    if let Some(p) = first_unjoined(site, &outgoing) {
        return Verdict::Broken(Rule::Unjoined, p, p);
    }
    let flows = Flows::new(site, outgoing);
    match breach_of_farm(&flows) {
        Some(breach) => broken(breach),
        None => Verdict::Legal(total_cost(&flows)),
    }
}

/// Judges a layout by the eleven rules. It takes no memory.
pub fn judge(site: &Site, layout: &Layout) -> Verdict
    ensures { IsVerdict site.now layout.now result }
{
    judge_cables(site, layout.cables())
}
