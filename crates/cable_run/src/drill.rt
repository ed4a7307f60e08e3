//! The command `drill`: a site is generated and planned, and the summary of its plan is written.

ghost use Rattle.std.specs.Prelude.{◌≤◌, ◌++◌, IfOk, None};
ghost use Rattle.std.specs.Fmt.{decimal};
ghost use Rattle.cable_definitions.specs.Arcs.{AreArcs};
ghost use Rattle.cable_definitions.specs.Drill.{drill_line};
ghost use Rattle.cable_definitions.specs.Stream.{Writes};
ghost use Rattle.site_text.specs.Verdict.{NamesPoint};
ghost use Rattle.run_definitions.specs.Effect.{effect};
ghost use Rattle.search_parts.specs.Outcome.{FindsPlan};
ghost use Rattle.cable_run.specs.Steps.{DrillGives};
ghost use Rattle.cable_run.specs.Summary.{summary_front};

use crate::fault::Fault;
use crate::plan::ending_of;
use cable_definitions::claim::Claim;
use cable_text::{Failed, LineBuffer, Sink, push_number};
use candidate_cables::Arcs;
use drill_site::drill_site;
use run_definitions::ending::Ending;
use search_core::{Plan, SearchFault, search};
use site_model::Site;
use site_text::write_verdict;
use std::alloc::{AllocError, Global};

/// What a summary tells besides the claim: the number that the site was generated from, how many turbines it
/// has, the budget in works, and how many candidate arcs it has.
#[derive(Clone, Copy)]
struct Drilled {
    k: u64,
    turbines: u32,
    budget: u32,
    arcs: u32,
}

/// A sink that keeps nothing and never fails.
#[derive(Clone, Copy)]
struct Unkept;

impl Sink for Unkept {
    ghost use Rattle.std.specs.Prelude.{None};

    ghost state = { λ _. record { bytes = None; faults = 0 } };

    fn push(&mut self, _bytes: &[u8]) -> Result<(), Failed> {
        Ok(())
    }
}

/// Generates a site from the number `k`, plans it over one lane, and writes the summary of its plan.
pub(crate) fn drill<O: Sink>(
    alloc: Global,
    k: u64,
    turbines: u32,
    budget: u32,
    out: &mut O,
) -> Result<Ending, Fault>
    requires some_turbines { 1 ≤ turbines }
    requires few_turbines { turbines ≤ 200 }
    requires some { 1 ≤ budget }
    requires most { budget ≤ 50000 }
    ensures { DrillGives k turbines budget (effect (O.state out.old) (O.state out.new)) result }
{
    let site = drill_site(alloc, k, turbines)?;
    // What a summary promises speaks of a valid site, which the site's points tell that it is.
    let _points = site.points();
    let arcs = Arcs::new(alloc, &site)?;
    let plan = plan_of(alloc, &site, &arcs, budget)?;
    let drilled = Drilled {
        k,
        turbines,
        budget,
        arcs: arcs.len(),
    };
    write_summary(&site, drilled, plan.claim, out)?;
    Ok(ending_of(plan.claim))
}

/// The plan of a site over one lane, whose items are kept nowhere.
fn plan_of(alloc: Global, site: &Site, arcs: &Arcs, budget: u32) -> Result<Plan, AllocError>
    requires arcs { AreArcs site.now arcs.now }
    requires some { 1 ≤ budget }
    requires most { budget ≤ 50000 }
    ensures { IfOk result (λ plan. FindsPlan site.now arcs.now budget 1 None None plan.layout plan.claim) }
{
    match search(alloc, site, arcs, budget, 1, &mut Unkept) {
        Ok(plan) => Ok(plan),
        Err(SearchFault::Memory) => Err(AllocError),
        // No push of this sink fails.
        Err(SearchFault::Write) => unreachable!(),
    }
}

/// Appends the summary as one line.
fn write_summary<O: Sink>(
    site: &Site,
    drilled: Drilled,
    claim: Claim,
    out: &mut O,
) -> Result<(), Failed>
    requires { NamesPoint site.now claim }
    ensures { Writes result (O.state out.old) (O.state out.new)
        (drill_line site.now drilled.k drilled.turbines drilled.budget drilled.arcs claim) }
{
    let mut buffer = LineBuffer::new();
    match push_summary(site, drilled, claim, &mut buffer) {
        Ok(()) => out.push(buffer.as_slice()),
        // A line that doesn't fit is written piece by piece.
        Err(Failed) => push_summary(site, drilled, claim, out),
    }
}

/// Appends the summary piece by piece.
fn push_summary<O: Sink>(
    site: &Site,
    drilled: Drilled,
    claim: Claim,
    out: &mut O,
) -> Result<(), Failed>
    requires { NamesPoint site.now claim }
    ensures { Writes result (O.state out.old) (O.state out.new)
        (drill_line site.now drilled.k drilled.turbines drilled.budget drilled.arcs claim) }
{
    push_front(drilled, out)?;
    write_verdict(site, claim, out)
}

/// Appends what stands before the verdict.
fn push_front<O: Sink>(drilled: Drilled, out: &mut O) -> Result<(), Failed>
    ensures { Writes result (O.state out.old) (O.state out.new)
        (summary_front drilled.k drilled.turbines drilled.budget drilled.arcs) }
{
    push_counted(b"drill ", drilled.k, out)?;
    push_counted(b" ", u64::from(drilled.turbines), out)?;
    push_counted(b" ", u64::from(drilled.budget), out)?;
    push_counted(b" arcs ", u64::from(drilled.arcs), out)?;
    out.push(b": ")
}

/// Appends this text and a number behind it.
fn push_counted<O: Sink>(before: &[u8], number: u64, out: &mut O) -> Result<(), Failed>
    ensures { Writes result (O.state out.old) (O.state out.new) (before.now ++ decimal number) }
{
    out.push(before)?;
    push_number(i128::from(number), out)
}
