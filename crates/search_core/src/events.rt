//! What an event changes.

ghost use Rattle.std.specs.Prelude.{◌≡◌, ℕ, List, Some, Ok, IfOk, OnOk, OnErr};
ghost use Rattle.cable_definitions.specs.declared.cable.Arc.{Arc as AnArc};
ghost use Rattle.cable_definitions.specs.Site.{Site as ASite};
ghost use Rattle.cable_definitions.specs.Arcs.{AreArcs};
ghost use Rattle.cable_definitions.specs.Layout.{IsLegal};
ghost use Rattle.cable_definitions.specs.Tree.{Node, node_of};
ghost use Rattle.cable_definitions.specs.Core.{Event as AnEvent};
ghost use Rattle.stored_makers.specs.Makers.{MakesSoundRows};
ghost use Rattle.stored_makers.specs.Choosers.{ChoosesFreeArcs};
ghost use Rattle.search_progress.specs.Lists.{Lists};
ghost use Rattle.search_core.specs.Calls.{IsCalled};
ghost use Rattle.search_progress.specs.Progress.{IsSearching, HasFirstRoom};
ghost use Rattle.search_core.specs.Works.{IsOnlyListed};
ghost use Rattle.search_parts.specs.Floored.{IsFloored};
ghost use Rattle.search_core.specs.Steps.{event_of, IsSound, Did};

use crate::machine::{Event, Step};
use crate::working::work_node;
use bound_shares::Shares;
use branch_tree::Act;
use cable_rows::Row;
use candidate_cables::Arcs;
use layout_meaning::Layout;
use node_works::Decisions;
use search_progress::Progress;
use site_model::Site;
use std::alloc::{AllocError, Global};
use stored_makers::{Chooser, CutMaker};

/// Has a lane take a node.
fn take_node(progress: &mut Progress, lane: u32) -> Step
    ensures did { (s : ASite) (arcs : List AnArc) (n : ℕ) → IsSearching s arcs n progress.old → Did s arcs n progress.old (AnEvent.Take lane) progress.new result }
    ensures searching { (s : ASite) (arcs : List AnArc) (n : ℕ) → IsSearching s arcs n progress.old → IsSearching s arcs n progress.new }
    ensures lists { (s : ASite) (arcs : List AnArc) (n : ℕ) → IsSearching s arcs n progress.old → Lists s arcs progress.old.pool progress.new.pool }
    ensures room { (s : ASite) (arcs : List AnArc) (n : ℕ) → IsSearching s arcs n progress.old → HasFirstRoom progress.old → HasFirstRoom progress.new }
{
    let Some(node) = progress.take(lane) else {
        return Step::Nothing;
    };
    Step::Took(node)
}

/// Makes a legal layout the known one, where it is cheaper or none was known.
fn keep_layout(site: &Site, progress: &mut Progress, layout: &Layout) -> Step
    requires legal { IsLegal site.now layout.now }
    ensures did { (arcs : List AnArc) (n : ℕ) → IsSearching site.now arcs n progress.old → Did site.now arcs n progress.old (AnEvent.Found layout.now) progress.new result }
    ensures searching { (arcs : List AnArc) (n : ℕ) → IsSearching site.now arcs n progress.old → IsSearching site.now arcs n progress.new }
    ensures lists { (arcs : List AnArc) (n : ℕ) → IsSearching site.now arcs n progress.old → Lists site.now arcs progress.old.pool progress.new.pool }
    ensures room { (arcs : List AnArc) (n : ℕ) → IsSearching site.now arcs n progress.old → HasFirstRoom progress.old → HasFirstRoom progress.new }
{
    if !progress.find(site, layout) {
        return Step::Nothing;
    }
    Step::Kept
}

/// Works the node of a lane, where it holds one.
///
/// # Errors
///
/// `AllocError` where there is no memory; some rows may be listed then, and nothing else is done.
fn work_lane<
    F: Fn(&Site, &Arcs, &Shares) -> Result<Option<Row>, AllocError>,
    G: Fn(&Arcs, &Decisions, &Shares) -> Option<u32>,
>(
    alloc: Global,
    site: &Site,
    arcs: &Arcs,
    maker: &mut CutMaker<'_, F>,
    chooser: &Chooser<G>,
    progress: &mut Progress,
    lane: u32,
) -> Result<Step, AllocError>
    requires arcs { AreArcs site.now arcs.now }
    requires searching { (n : ℕ) × IsSearching site.now arcs.now n progress.old }
    requires room { HasFirstRoom progress.old }
    requires makes { MakesSoundRows F.Fn maker.old.make maker.old.site }
    requires maker_site { maker.old.site ≡ site.now }
    requires chooses { ChoosesFreeArcs G.Fn chooser.now }
    ensures did { IfOk result (λ step. (n : ℕ) → IsSearching site.now arcs.now n progress.old → Did site.now arcs.now n progress.old (AnEvent.Work lane) progress.new step) }
    ensures floor { (rows_from rows_to n : ℕ) (made : Node) → result ≡ Ok (Step.Worked rows_from rows_to) → progress.new.work.node ≡ 1 → IsSearching site.now arcs.now n progress.old
        → node_of progress.new.tree.nodes 1 ≡ Some made → IsFloored site.now made }
    ensures called { (rows_from rows_to arc : ℕ) → result ≡ Ok (Step.Worked rows_from rows_to) → progress.new.work.act ≡ Act.Split arc → IsCalled maker.old maker.new progress.old.pool progress.new.pool }
    ensures lists { Lists site.now arcs.now progress.old.pool progress.new.pool }
    ensures only_listed { OnErr result (IsOnlyListed progress.old progress.new) }
    ensures searching { (n : ℕ) → IsSearching site.now arcs.now n progress.old → IsSearching site.now arcs.now n progress.new }
    ensures room { OnOk result (HasFirstRoom progress.new) }
    ensures same_make { maker.new.make ≡ maker.old.make }
    ensures same_site { maker.new.site ≡ maker.old.site }
{
    let Some(node) = progress.held(lane) else {
        return Ok(Step::Nothing);
    };
    let rows_from = progress.pool.len();
    work_node(alloc, site, arcs, maker, chooser, progress, lane, node)?;
    Ok(Step::Worked {
        rows_from,
        rows_to: progress.pool.len(),
    })
}

/// Has an event happen.
///
/// # Errors
///
/// `AllocError` where there is no memory; some rows may be listed then, and nothing else is done.
pub(crate) fn step_on<
    F: Fn(&Site, &Arcs, &Shares) -> Result<Option<Row>, AllocError>,
    G: Fn(&Arcs, &Decisions, &Shares) -> Option<u32>,
>(
    alloc: Global,
    site: &Site,
    arcs: &Arcs,
    maker: &mut CutMaker<'_, F>,
    chooser: &Chooser<G>,
    progress: &mut Progress,
    event: Event,
) -> Result<Step, AllocError>
    requires arcs { AreArcs site.now arcs.now }
    requires searching { (n : ℕ) × IsSearching site.now arcs.now n progress.old }
    requires room { HasFirstRoom progress.old }
    requires makes { MakesSoundRows F.Fn maker.old.make maker.old.site }
    requires maker_site { maker.old.site ≡ site.now }
    requires chooses { ChoosesFreeArcs G.Fn chooser.now }
    requires legal { IsSound site.now event }
    ensures did { IfOk result (λ step. (n : ℕ) → IsSearching site.now arcs.now n progress.old → Did site.now arcs.now n progress.old (event_of event.entry) progress.new step) }
    ensures floor { (rows_from rows_to n : ℕ) (made : Node) → result ≡ Ok (Step.Worked rows_from rows_to) → progress.new.work.node ≡ 1 → IsSearching site.now arcs.now n progress.old
        → node_of progress.new.tree.nodes 1 ≡ Some made → IsFloored site.now made }
    ensures called { (rows_from rows_to arc : ℕ) → result ≡ Ok (Step.Worked rows_from rows_to) → progress.new.work.act ≡ Act.Split arc → IsCalled maker.old maker.new progress.old.pool progress.new.pool }
    ensures lists { Lists site.now arcs.now progress.old.pool progress.new.pool }
    ensures only_listed { OnErr result (IsOnlyListed progress.old progress.new) }
    ensures searching { (n : ℕ) → IsSearching site.now arcs.now n progress.old → IsSearching site.now arcs.now n progress.new }
    ensures room { OnOk result (HasFirstRoom progress.new) }
    ensures same_make { maker.new.make ≡ maker.old.make }
    ensures same_site { maker.new.site ≡ maker.old.site }
{
    match event {
        Event::Take(lane) => {
            let step = take_node(progress, lane);
            return Ok(step);
        }
        Event::Work(lane) => {
            return work_lane(alloc, site, arcs, maker, chooser, progress, lane);
        }
        Event::Found(layout) => {
            let step = keep_layout(site, progress, layout);
            return Ok(step);
        }
    }
}
