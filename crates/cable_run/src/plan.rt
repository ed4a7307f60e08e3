//! The command `plan`: a site is read to the end of the input, and the document of its plan is printed.

ghost use Rattle.std.specs.Prelude.{◌≤◌, [], ◌∷◌, ◌++◌, codes, All};
ghost use Rattle.std.specs.Fmt.{decimal};
ghost use Rattle.cable_definitions.specs.Text.{line, site_lines, claim_line};
ghost use Rattle.cable_definitions.specs.Stream.{Writes};
ghost use Rattle.proof_lines.specs.Written.{EndsAtPoints, layout_lines};
ghost use Rattle.site_text.specs.Verdict.{NamesPoint};
ghost use Rattle.run_definitions.specs.Effect.{effect};
ghost use Rattle.run_definitions.specs.Ends.{EndsWith};
ghost use Rattle.cable_run.specs.Steps.{PlanGives};

use crate::fault::Fault;
use crate::whole::read_site;
use cable_definitions::claim::Claim;
use cable_text::{Failed, Sink, Source};
use candidate_cables::Arcs;
use proof_lines::{write_budget, write_claim, write_layout};
use run_definitions::ending::Ending;
use search_core::{Plan, search};
use site_model::Site;
use site_text::write_site;
use std::alloc::Global;

/// Reads a site to the end of the input, and prints the document of its plan over so many lanes.
pub(crate) fn plan<S: Source, O: Sink>(
    alloc: Global,
    budget: u32,
    lanes: u32,
    input: &mut S,
    out: &mut O,
) -> Result<Ending, Fault>
    requires some { 1 ≤ budget }
    requires most { budget ≤ 50000 }
    requires some_lanes { 1 ≤ lanes }
    requires most_lanes { lanes ≤ 16 }
    ensures { PlanGives budget lanes (effect (S.state input.old) (S.state input.new)) (effect (O.state out.old) (O.state out.new)) result }
{
    let site = read_site(alloc, input)?;
    let arcs = Arcs::new(alloc, &site)?;
    write_head(&site, budget, out)?;
    let plan = search(alloc, &site, &arcs, budget, lanes, out)?;
    write_tail(&site, &plan, out)?;
    Ok(ending_of(plan.claim))
}

/// Appends what stands before the items: the site's lines and the budget.
fn write_head<O: Sink>(site: &Site, budget: u32, out: &mut O) -> Result<(), Failed>
    ensures { Writes result (O.state out.old) (O.state out.new)
        (site_lines site.now ++ line (codes "budget" ∷ decimal budget ∷ [])) }
{
    write_site(site, out)?;
    write_budget(budget, out)
}

/// Appends what stands behind the items: the layout, the claim and the last line.
fn write_tail<O: Sink>(site: &Site, plan: &Plan, out: &mut O) -> Result<(), Failed>
    requires cables { All (EndsAtPoints site.now) plan.now.layout }
    requires claim { NamesPoint site.now plan.now.claim }
    ensures { Writes result (O.state out.old) (O.state out.new)
        (layout_lines site.now plan.now.layout ++ (claim_line site.now plan.now.claim ++ line (codes "end" ∷ codes "document" ∷ []))) }
{
    write_layout(site, &plan.layout, out)?;
    write_claim(site, plan.claim, out)
}

/// How a plan ends that was printed with this claim.
pub(crate) fn ending_of(claim: Claim) -> Ending
    ensures { EndsWith result claim }
{
    match claim {
        Claim::Optimal(_) => Ending::Done,
        Claim::Gap { .. } => Ending::Gap,
        Claim::Partial { .. } => Ending::Partial,
        Claim::Infeasible => Ending::Infeasible,
    }
}
