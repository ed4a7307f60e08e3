//! How a search begins, and what is concluded from its end.

ghost use Rattle.std.specs.Prelude.{◌≡◌, List, IfOk, OnOk};
ghost use Rattle.cable_definitions.specs.Arcs.{AreArcs};
ghost use Rattle.cable_definitions.specs.Tree.{Item};
ghost use Rattle.cable_definitions.specs.Core.{Core, Runs};
ghost use Rattle.run_definitions.specs.Rounds.{found};
ghost use Rattle.search_core.specs.State.{IsRunning, KeepsParts, core};
ghost use Rattle.search_parts.specs.Start.{CanBegin, layout_of};
ghost use Rattle.search_parts.specs.Ended.{HasEnded, IsConcluded};

use crate::machine::{Event, Search};
use bound_shares::Shares;
use cable_definitions::claim::Claim;
use cable_rows::Row;
use candidate_cables::Arcs;
use layout_meaning::Layout;
use node_works::Decisions;
use search_parts::{Incumbent, Plan, claim_of, part_plan, settle_layout};
use site_model::Site;
use std::alloc::{AllocError, Global};

/// Has a search find the layout to begin with, where there is one.
///
/// # Errors
///
/// `AllocError` where there is no memory.
pub(crate) fn begin<
    F: Fn(&Site, &Arcs, &Shares) -> Result<Option<Row>, AllocError>,
    G: Fn(&Arcs, &Decisions, &Shares) -> Option<u32>,
>(alloc: Global, search: &mut Search<'_, F, G>, start: &Incumbent) -> Result<(), AllocError>
    requires running { IsRunning F.Fn G.Fn search.old }
    requires begins { CanBegin search.old.site start.now }
    ensures running { IsRunning F.Fn G.Fn search.new }
    ensures parts { KeepsParts search.old search.new }
    ensures begins { OnOk result ((items : List Item) → Runs search.old.site search.old.arcs search.old.progress.budget (core items search.old)
        (found (layout_of start.now)) (core items search.new)) }
{
    match start {
        Incumbent::Part { .. } => Ok(()),
        Incumbent::Known(first) => {
            let _ = search.step(alloc, Event::Found(&first.layout))?;
            Ok(())
        }
    }
}

/// Has a search that is at its end find a settled layout that may be cheaper than the known one, and answers that layout with what is claimed of it: that
/// its cost is optimal, or that it lies above the least bound of a leaf that isn't dead by a gap. Where no layout is known it is the grown part with which
/// the search began, and where all leaves are dead there is no cable.
///
/// # Errors
///
/// `AllocError` where there is no memory.
pub(crate) fn conclude<
    F: Fn(&Site, &Arcs, &Shares) -> Result<Option<Row>, AllocError>,
    G: Fn(&Arcs, &Decisions, &Shares) -> Option<u32>,
>(
    alloc: Global,
    site: &Site,
    arcs: &Arcs,
    search: &mut Search<'_, F, G>,
    start: Incumbent,
) -> Result<Plan, AllocError>
    requires arcs { AreArcs site.now arcs.now }
    requires running { IsRunning F.Fn G.Fn search.old }
    requires site { search.old.site ≡ site.now }
    requires arcs_of_site { search.old.arcs ≡ arcs.now }
    requires begins { CanBegin site.now start }
    requires ended { (items : List Item) × HasEnded site.now arcs.now search.old.progress.budget start (core items search.old) }
    ensures { IfOk result (λ plan. (items : List Item) → HasEnded site.now arcs.now search.old.progress.budget start (core items search.old)
        → (last : Core) × IsConcluded site.now arcs.now search.old.progress.budget (core items search.old) last plan.layout plan.claim) }
{
    let Some(bound) = search.least() else {
        return Ok(Plan {
            layout: Layout::new(alloc)?,
            claim: Claim::Infeasible,
        });
    };
    let Some((known, _)) = search.best() else {
        return Ok(part_plan(bound, start));
    };
    let settled = settle_layout(alloc, site, arcs, known)?;
    let _ = search.step(alloc, Event::Found(&settled.layout))?;
    let claim = claim_of(settled.cost, bound);
    Ok(Plan {
        layout: settled.layout,
        claim,
    })
}
