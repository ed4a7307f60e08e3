//! Lanes that are told what to do, and layouts that are found between.

ghost use Rattle.std.specs.Prelude.{◌≡◌, length, IfOk, IfSome, OnOk};
ghost use Rattle.cable_definitions.specs.Arcs.{AreArcs};
ghost use Rattle.cable_definitions.specs.Layout.{IsLegal};
ghost use Rattle.cable_rows.specs.Made.{row_made};
ghost use Rattle.stored_makers.specs.Makers.{AreShares, IsSoundRow};
ghost use Rattle.stored_makers.specs.Choosers.{AreBeside, IsFreeChoice};
ghost use Rattle.search_core.specs.State.{IsRunning};

use bound_shares::Shares;
use cable_rows::{Row, RowKind, RowPool, row_form};
use candidate_cables::Arcs;
use layout_meaning::{Cable, Layout, Verdict, judge};
use node_works::{Decisions, Mark};
use sample_sites::{FORK, site_of};
use search_core::{Ended, Event, Search, Step};
use site_model::Site;
use std::alloc::{AllocError, Global};
use std::process::Abort;
use std::test::Fail;
use stored_makers::{Chooser, CutMaker};

/// The layout in which these points' cables end.
fn layout_to(alloc: Global, ends: [u32; 3]) -> Result<Layout, Fail> {
    let mut layout = Layout::new(alloc)?;
    for from in 1..4u32 {
        let to = ends[from as usize - 1];
        layout.push(Cable { from, to, grade: 0 })?;
    }
    Ok(layout)
}

/// The row on the cables out of the first two turbines together.
fn pair_row(alloc: Global, site: &Site, arcs: &Arcs) -> Result<Option<Row>, AllocError>
    requires { AreArcs site.now arcs.now }
    ensures { IfOk result (λ answer. IfSome answer (λ row. IsSoundRow site.now arcs.now (row_made row))) }
{
    let members = [1, 2];
    match row_form(site, arcs, RowKind::Cut, &members) {
        Ok(()) => Ok(Some(Row::new(alloc, RowKind::Cut, &members)?)),
        Err(_) => Ok(None),
    }
}

/// The free arc of greatest number; none where no arc is free.
fn last_free(arcs: &Arcs, decisions: &Decisions) -> Option<u32>
    requires { length decisions.now ≡ length arcs.now }
    ensures { IsFreeChoice decisions.now result }
{
    let mut last = None;
    for arc in 0..arcs.len() {
        if matches!(decisions.mark(arc), Mark::Free) {
            last = Some(arc);
        }
    }
    last
}

/// Whether the pool has a row of two turbines from this number on.
fn has_pair(pool: &RowPool, from: u32) -> bool {
    for row in from..pool.len() {
        if matches!(pool.kind(row), RowKind::Cut) && pool.members(row) == [1, 2].as_slice() {
            return true;
        }
    }
    false
}

/// Whether a step listed a row of two turbines.
fn listed_pair(pool: &RowPool, step: Step) -> bool {
    match step {
        Step::Worked { rows_from, .. } => has_pair(pool, rows_from),
        Step::Nothing | Step::Took(_) | Step::Kept => false,
    }
}

/// What a lane is told.
enum Order {
    Take,
    Work,
}

/// Has a lane take a node, or work the one that it holds.
fn tell<
    F: Fn(&Site, &Arcs, &Shares) -> Result<Option<Row>, AllocError>,
    G: Fn(&Arcs, &Decisions, &Shares) -> Option<u32>,
>(
    alloc: Global,
    search: &mut Search<'_, F, G>,
    site: &Site,
    lane: u32,
    order: Order,
) -> Result<Step, AllocError>
    requires running { IsRunning F.Fn G.Fn search.old }
    requires site { search.old.site ≡ site.now }
    ensures running { IsRunning F.Fn G.Fn search.new }
    ensures site { search.new.site ≡ site.now }
{
    match order {
        Order::Take => search.step(alloc, Event::Take(lane)),
        Order::Work => search.step(alloc, Event::Work(lane)),
    }
}

/// Has a layout be found, where it is legal.
fn find<
    F: Fn(&Site, &Arcs, &Shares) -> Result<Option<Row>, AllocError>,
    G: Fn(&Arcs, &Decisions, &Shares) -> Option<u32>,
>(alloc: Global, search: &mut Search<'_, F, G>, site: &Site, layout: &Layout) -> Result<Step, Fail>
    requires running { IsRunning F.Fn G.Fn search.old }
    requires site { search.old.site ≡ site.now }
    ensures running { IsRunning F.Fn G.Fn search.new }
    ensures site { search.new.site ≡ site.now }
{
    match judge(site, layout) {
        Verdict::Legal(_) => Ok(search.step(alloc, Event::Found(layout))?),
        Verdict::Broken(..) => Err("the layout isn't legal".into()),
    }
}

/// Two takes of one lane, a work of a lane that holds nothing, and layouts that are found after the first work, of which the last isn't cheaper.
fn play<
    F: Fn(&Site, &Arcs, &Shares) -> Result<Option<Row>, AllocError>,
    G: Fn(&Arcs, &Decisions, &Shares) -> Option<u32>,
>(rt: &impl Abort, alloc: Global, search: &mut Search<'_, F, G>, site: &Site) -> Result<(), Fail>
    requires running { IsRunning F.Fn G.Fn search.old }
    requires site { search.old.site ≡ site.now }
    ensures running { OnOk result (IsRunning F.Fn G.Fn search.new) }
    ensures site { OnOk result (search.new.site ≡ site.now) }
{
    assert_eq!(rt; tell(alloc, search, site, 0, Order::Take)?, Step::Took(1));
    assert_eq!(rt; tell(alloc, search, site, 0, Order::Take)?, Step::Nothing);
    assert_eq!(rt; tell(alloc, search, site, 1, Order::Work)?, Step::Nothing);
    assert_eq!(rt; tell(alloc, search, site, 1, Order::Take)?, Step::Nothing);
    let worked = tell(alloc, search, site, 0, Order::Work)?;
    assert!(rt; listed_pair(search.pool(), worked));
    let dear = layout_to(alloc, [0, 0, 0])?;
    let cheap = layout_to(alloc, [0, 1, 1])?;
    assert_eq!(rt; find(alloc, search, site, &dear)?, Step::Kept);
    assert_eq!(rt; find(alloc, search, site, &cheap)?, Step::Kept);
    assert_eq!(rt; find(alloc, search, site, &dear)?, Step::Nothing);
    Ok(())
}

/// Takes and works of four lanes out of their order.
fn go_on<
    F: Fn(&Site, &Arcs, &Shares) -> Result<Option<Row>, AllocError>,
    G: Fn(&Arcs, &Decisions, &Shares) -> Option<u32>,
>(alloc: Global, search: &mut Search<'_, F, G>, site: &Site) -> Result<(), AllocError>
    requires running { IsRunning F.Fn G.Fn search.old }
    requires site { search.old.site ≡ site.now }
    ensures running { OnOk result (IsRunning F.Fn G.Fn search.new) }
    ensures site { OnOk result (search.new.site ≡ site.now) }
{
    for turn in 0..600u32 {
        let _ = tell(alloc, search, site, turn % 4, Order::Take)?;
        let _ = tell(alloc, search, site, (turn + 2) % 4, Order::Take)?;
        let _ = tell(alloc, search, site, (turn + 3) % 4, Order::Work)?;
    }
    Ok(())
}

/// The search of a fork with four lanes under these events.
fn search_under_events<
    F: Fn(&Site, &Arcs, &Shares) -> Result<Option<Row>, AllocError>,
    G: Fn(&Arcs, &Decisions, &Shares) -> Option<u32>,
>(rt: &impl Abort, alloc: Global, search: &mut Search<'_, F, G>, site: &Site) -> Result<(), Fail>
    requires running { IsRunning F.Fn G.Fn search.old }
    requires site { search.old.site ≡ site.now }
{
    play(rt, alloc, search, site)?;
    go_on(alloc, search, site)?;
    assert!(rt; search.ended() == Some(Ended::Closed));
    assert!(rt; search.least() == Some(2000));
    assert!(rt; search.maker().made() > 0);
    Ok(())
}

#[test]
fn events_that_are_no_rounds_close_a_search(rt: HostRuntime) -> Result<(), Fail> {
    let alloc = rt.alloc();
    let site = site_of(alloc, FORK)?;
    let arcs = Arcs::new(alloc, &site)?;
    let make = move |site: &Site, arcs: &Arcs, shares: &Shares|
        requires { AreShares site.now arcs.now shares.now }
        ensures { IfOk result (λ answer. IfSome answer (λ row. IsSoundRow site.now arcs.now (row_made row))) }
    { pair_row(alloc, site, arcs) };
    let name = |arcs: &Arcs, decisions: &Decisions, shares: &Shares|
        requires { AreBeside arcs.now decisions.now shares.now }
        ensures { IsFreeChoice decisions.now result }
    { last_free(arcs, decisions) };
    let maker = CutMaker::new(&site, make);
    let mut search = Search::new(alloc, &site, &arcs, 1023, 4, maker, Chooser::new(name))?;
    search_under_events(&rt, alloc, &mut search, &site)
}
