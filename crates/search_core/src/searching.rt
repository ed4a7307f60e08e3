//! What a search finds.

ghost use Rattle.std.specs.Prelude.{◌≡◌, ◌≤◌, Err, IfOk, OnErr, IfSome};
ghost use Rattle.cable_definitions.specs.Arcs.{AreArcs};
ghost use Rattle.cable_definitions.specs.Core.{first_core};
ghost use Rattle.cable_definitions.specs.Stream.{FaultsRose, FaultsOnlyRise};
ghost use Rattle.search_core.specs.State.{IsRunning, core};
ghost use Rattle.cable_rows.specs.Made.{row_made};
ghost use Rattle.stored_makers.specs.Makers.{AreShares, IsSoundRow};
ghost use Rattle.stored_makers.specs.Choosers.{AreBeside, IsFreeChoice};
ghost use Rattle.search_parts.specs.Outcome.{FindsPlan, WritesPart};

use crate::concluding::{begin, conclude};
use crate::machine::Search;
use crate::rounds::{work_all, write_rows};
use bound_shares::Shares;
use cable_rows::Row;
use cable_text::{Failed, Sink};
use candidate_cables::Arcs;
use crossing_index::Crossings;
use node_works::Decisions;
use search_parts::{Plan, first_incumbent, first_row, most_open};
use site_model::Site;
use std::alloc::{AllocError, Global};
use stored_makers::{Chooser, CutMaker};
use thiserror::Error;

/// Why a search wasn't ended.
#[derive(Clone, Copy, Debug, PartialEq, Eq, Error)]
pub enum SearchFault {
    #[error("the items could not be written")]
    Write,
    #[error("out of memory")]
    Memory,
}

impl From<AllocError> for SearchFault {
    ghost use Rattle.search_core.specs.declared.searching.SearchFault.TheVariants.{Memory};

    ghost from_gives = { λ _ fault. fault ≡ Memory };

    fn from(_error: AllocError) -> SearchFault {
        SearchFault::Memory
    }
}

impl From<Failed> for SearchFault {
    ghost use Rattle.search_core.specs.declared.searching.SearchFault.TheVariants.{Write};

    ghost from_gives = { λ _ fault. fault ≡ Write };

    fn from(_error: Failed) -> SearchFault {
        SearchFault::Write
    }
}

/// Has a search that has listed the first rows and done nothing else find a plan, over its lanes.
///
/// # Errors
///
/// `Write` only where the count of `out` rose or stands at its last value, `Memory` where there is none;
/// a first part of the items' lines was appended then.
fn search_with<
    O: Sink,
    F: Fn(&Site, &Arcs, &Shares) -> Result<Option<Row>, AllocError>,
    G: Fn(&Arcs, &Decisions, &Shares) -> Option<u32>,
>(
    alloc: Global,
    site: &Site,
    arcs: &Arcs,
    search: &mut Search<'_, F, G>,
    lanes: u32,
    out: &mut O,
) -> Result<Plan, SearchFault>
    requires arcs { AreArcs site.now arcs.now }
    requires running { IsRunning F.Fn G.Fn search.old }
    requires site { search.old.site ≡ site.now }
    requires arcs_of_site { search.old.arcs ≡ arcs.now }
    requires first { core (first_core site.now lanes).items search.old ≡ first_core site.now lanes }
    requires some { 1 ≤ search.old.progress.budget }
    requires some_lanes { 1 ≤ lanes }
    ensures plan { IfOk result (λ plan. FindsPlan site.now arcs.now search.old.progress.budget lanes (O.state out.old).bytes (O.state out.new).bytes plan.layout plan.claim) }
    ensures part { OnErr result (WritesPart site.now arcs.now search.old.progress.budget (O.state out.old).bytes (O.state out.new).bytes) }
    ensures failed { result ≡ Err SearchFault.Write → FaultsRose (O.state out.old) (O.state out.new) }
    ensures count { FaultsOnlyRise (O.state out.old) (O.state out.new) }
{
    write_rows(search.pool(), 0, out)?;
    let start = first_incumbent(alloc, site, arcs)?;
    begin(alloc, search, &start)?;
    work_all(alloc, search, lanes, out)?;
    Ok(conclude(alloc, site, arcs, search, start)?)
}

/// Searches for the cheapest legal layout of a site by branch and bound over its candidate arcs, with so many lanes, and works at most as many nodes as
/// the budget has. It begins with a settled layout, where the greedy growth or the straight layout gives a legal one. Then come rounds: each lane takes
/// an open node of least bound, and then each works the node that it holds.
///
/// Appends each row and each work to `out` when it is made: first the rows on the cables of single points, then what each work lists, and the work.
///
/// It ends where no node is open that may hold a cheaper layout, with the cheapest layout or the claim that there is none; or where the budget is spent,
/// with the cheapest layout so far, settled, and the least bound, or with the grown part where no layout was found.
///
/// # Errors
///
/// `Write` only where the count of `out` rose or stands at its last value, `Memory` where there is none;
/// a first part of the items' lines was appended then.
pub fn search<O: Sink>(
    alloc: Global,
    site: &Site,
    arcs: &Arcs,
    budget: u32,
    lanes: u32,
    out: &mut O,
) -> Result<Plan, SearchFault>
    requires arcs { AreArcs site.now arcs.now }
    requires some { 1 ≤ budget }
    requires most { budget ≤ 50000 }
    requires some_lanes { 1 ≤ lanes }
    requires most_lanes { lanes ≤ 16 }
    ensures plan { IfOk result (λ plan. FindsPlan site.now arcs.now budget lanes (O.state out.old).bytes (O.state out.new).bytes plan.layout plan.claim) }
    ensures part { OnErr result (WritesPart site.now arcs.now budget (O.state out.old).bytes (O.state out.new).bytes) }
    ensures failed { result ≡ Err SearchFault.Write → FaultsRose (O.state out.old) (O.state out.new) }
    ensures count { FaultsOnlyRise (O.state out.old) (O.state out.new) }
{
    let all_crossings = Crossings::new(alloc, site, arcs)?;
    let crossings = &all_crossings;
    let make = move |site: &Site, arcs: &Arcs, shares: &Shares|
        requires shares { AreShares site.now arcs.now shares.now }
        requires crossings { crossings.now ≡ record { site = site.now; arcs = arcs.now } }
        ensures { IfOk result (λ answer. IfSome answer (λ row. IsSoundRow site.now arcs.now (row_made row))) }
    { first_row(alloc, site, arcs, crossings, shares) };
    let name = |arcs: &Arcs, decisions: &Decisions, shares: &Shares|
        requires { AreBeside arcs.now decisions.now shares.now }
        ensures { IsFreeChoice decisions.now result }
    { most_open(arcs, decisions, shares) };
    let maker = CutMaker::new(site, make);
    let mut search = Search::new(alloc, site, arcs, budget, lanes, maker, Chooser::new(name))?;
    search_with(alloc, site, arcs, &mut search, lanes, out)
}
