//! Rounds over the lanes of a search, whose items are written as they are made.

ghost use Rattle.std.specs.Prelude.{◌≡◌, ℕ, ◌≤◌, List, [], ◌∷◌, length, drop, map, OnOk};
ghost use Rattle.std.specs.List.{concat};
ghost use Rattle.cable_definitions.specs.Tree.{Item};
ghost use Rattle.cable_definitions.specs.Text.{item_lines};
ghost use Rattle.cable_definitions.specs.Core.{Take as ATake, Work as AWork, Runs, are_row_items};
ghost use Rattle.cable_definitions.specs.Stream.{Writes};
ghost use Rattle.run_definitions.specs.Rounds.{numbers_below, round as round_of, LeadToEnd};
ghost use Rattle.search_core.specs.State.{IsRunning, KeepsParts, core};
ghost use Rattle.search_parts.specs.Ended.{IsRootFloored};
ghost use Rattle.search_parts.specs.Rounds.{IsIdle};
ghost use Rattle.search_core.specs.Advances.{items_after, Advances};

use crate::machine::{Event, Search, Step};
use crate::searching::SearchFault;
use bound_shares::Shares;
use cable_rows::{Row, RowPool};
use cable_text::{Failed, Sink};
use candidate_cables::Arcs;
use node_works::Decisions;
use proof_lines::{write_row, write_work};
use site_model::Site;
use std::alloc::{AllocError, Global};

/// Writes the rows of a pool from this number on.
///
/// # Errors
///
/// `Failed` only where the count of `out` rose or stands at its last value; a first part of the rows was appended then.
pub(crate) fn write_rows<O: Sink>(pool: &RowPool, from: u32, out: &mut O) -> Result<(), Failed>
    requires { from ≤ length pool.now }
    ensures { Writes result (O.state out.old) (O.state out.new) (concat (map item_lines (are_row_items (drop from pool.now)))) }
{
    for row in from..pool.len() {
        write_row(pool.kind(row), pool.members(row), out)?;
    }
    Ok(())
}

/// Writes the rows that a step listed, and the work that it did.
///
/// # Errors
///
/// `Failed` only where the count of `out` rose or stands at its last value; a first part of these was appended then.
fn write_step<
    O: Sink,
    F: Fn(&Site, &Arcs, &Shares) -> Result<Option<Row>, AllocError>,
    G: Fn(&Arcs, &Decisions, &Shares) -> Option<u32>,
>(search: &Search<'_, F, G>, step: Step, out: &mut O) -> Result<(), Failed>
    requires worked { (from to : ℕ) → step ≡ Step.Worked from to → (1 ≤ search.now.progress.tree.works) × (from ≤ length search.now.progress.pool) }
    ensures { Writes result (O.state out.old) (O.state out.new) (concat (map item_lines (items_after search.now.progress step))) }
{
    match step {
        Step::Worked { rows_from, .. } => {
            write_rows(search.pool(), rows_from, out)?;
            write_work(search.last_work(), out)
        }
        Step::Nothing | Step::Took(_) | Step::Kept => Ok(()),
    }
}

/// Has a lane work the node that it holds, where it holds one, and writes the rows that were listed and the work.
///
/// # Errors
///
/// `Write` only where the count of `out` rose or stands at its last value, `Memory` where there is none; a first part of the items' lines was appended
/// then.
fn work_and_write<
    O: Sink,
    F: Fn(&Site, &Arcs, &Shares) -> Result<Option<Row>, AllocError>,
    G: Fn(&Arcs, &Decisions, &Shares) -> Option<u32>,
>(alloc: Global, search: &mut Search<'_, F, G>, lane: u32, out: &mut O) -> Result<(), SearchFault>
    requires running { IsRunning F.Fn G.Fn search.old }
    ensures running { IsRunning F.Fn G.Fn search.new }
    ensures parts { KeepsParts search.old search.new }
    ensures advances { (items : List Item) → Advances result search.old.site search.old.arcs search.old.progress.budget (core items search.old)
        (Runs search.old.site search.old.arcs search.old.progress.budget (core items search.old) (AWork lane ∷ [])) (λ more. core more search.new)
        (O.state out.old) (O.state out.new) }
    ensures floored { OnOk result (IsRootFloored search.old.site search.old.progress.tree.nodes → IsRootFloored search.old.site search.new.progress.tree.nodes) }
{
    let step = search.step(alloc, Event::Work(lane))?;
    write_step(search, step, out)?;
    Ok(())
}

/// Has each lane take a node, in order, as far as that is possible.
///
/// # Errors
///
/// `AllocError` where there is no memory.
fn take_all<
    F: Fn(&Site, &Arcs, &Shares) -> Result<Option<Row>, AllocError>,
    G: Fn(&Arcs, &Decisions, &Shares) -> Option<u32>,
>(alloc: Global, search: &mut Search<'_, F, G>, lanes: u32) -> Result<(), AllocError>
    requires running { IsRunning F.Fn G.Fn search.old }
    ensures running { IsRunning F.Fn G.Fn search.new }
    ensures parts { KeepsParts search.old search.new }
    ensures takes { OnOk result ((items : List Item) → Runs search.old.site search.old.arcs search.old.progress.budget (core items search.old)
        (map ATake (numbers_below lanes)) (core items search.new)) }
{
    for lane in 0..lanes {
        let _ = search.step(alloc, Event::Take(lane))?;
    }
    Ok(())
}

/// One round: each lane takes a node, and then each works the node that it holds, in order.
///
/// # Errors
///
/// `Write` only where the count of `out` rose or stands at its last value, `Memory` where there is none; a first part of the items' lines was appended
/// then.
pub(crate) fn round<
    O: Sink,
    F: Fn(&Site, &Arcs, &Shares) -> Result<Option<Row>, AllocError>,
    G: Fn(&Arcs, &Decisions, &Shares) -> Option<u32>,
>(alloc: Global, search: &mut Search<'_, F, G>, lanes: u32, out: &mut O) -> Result<(), SearchFault>
    requires running { IsRunning F.Fn G.Fn search.old }
    ensures running { IsRunning F.Fn G.Fn search.new }
    ensures parts { KeepsParts search.old search.new }
    ensures advances { (items : List Item) → Advances result search.old.site search.old.arcs search.old.progress.budget (core items search.old)
        (Runs search.old.site search.old.arcs search.old.progress.budget (core items search.old) (round_of lanes)) (λ more. core more search.new)
        (O.state out.old) (O.state out.new) }
    ensures floored { OnOk result (IsRootFloored search.old.site search.old.progress.tree.nodes → IsRootFloored search.old.site search.new.progress.tree.nodes) }
{
    take_all(alloc, search, lanes)?;
    for lane in 0..lanes {
        work_and_write(alloc, search, lane, out)?;
    }
    Ok(())
}

/// Rounds to the end of a search: until no node is open that may hold a cheaper layout than the known one, or the budget is spent.
///
/// # Errors
///
/// `Write` only where the count of `out` rose or stands at its last value, `Memory` where there is none; a first part of the items' lines was appended
/// then.
pub(crate) fn work_all<
    O: Sink,
    F: Fn(&Site, &Arcs, &Shares) -> Result<Option<Row>, AllocError>,
    G: Fn(&Arcs, &Decisions, &Shares) -> Option<u32>,
>(alloc: Global, search: &mut Search<'_, F, G>, lanes: u32, out: &mut O) -> Result<(), SearchFault>
    requires running { IsRunning F.Fn G.Fn search.old }
    requires some_lanes { 1 ≤ lanes }
    requires idle { (items : List Item) × IsIdle search.old.site search.old.arcs search.old.progress.budget lanes (core items search.old) }
    ensures running { IsRunning F.Fn G.Fn search.new }
    ensures parts { KeepsParts search.old search.new }
    ensures advances { (items : List Item) → Advances result search.old.site search.old.arcs search.old.progress.budget (core items search.old)
        (λ after. (rounds : ℕ) × LeadToEnd search.old.site search.old.arcs search.old.progress.budget lanes rounds (core items search.old) after) (λ more. core more search.new)
        (O.state out.old) (O.state out.new) }
    ensures floored { OnOk result (IsRootFloored search.old.site search.old.progress.tree.nodes → IsRootFloored search.old.site search.new.progress.tree.nodes) }
{
    while search.ended().is_none() {
        round(alloc, search, lanes, out)?;
    }
    Ok(())
}
