//! Rows whose weights are raised.

ghost use Rattle.std.specs.Prelude.{All, IfOk, OnOk};
ghost use Rattle.cable_definitions.specs.Arcs.{AreArcs};
ghost use Rattle.cable_definitions.specs.Row.{IsWellFormed};

use bound_value::{lawful, weigh};
use cable_definitions::row::RowKind;
use cable_rows::{RowPool, row_form};
use candidate_cables::Arcs;
use node_works::{Decisions, Mark, Weights};
use row_lifts::{lift_all, slack};
use sample_sites::{FORK, site_of};
use site_model::Site;
use std::alloc::Global;
use std::test::Fail;

/// What a cost of one unit weighs.
const UNIT: i128 = 1_048_576;

/// Lists a row that has to be well formed.
fn list(
    pool: &mut RowPool,
    site: &Site,
    arcs: &Arcs,
    kind: RowKind,
    members: &[u32],
) -> Result<(), Fail>
    requires { AreArcs site.now arcs.now }
{
    row_form(site, arcs, kind, members)?;
    pool.add(site, arcs, kind, members)?;
    Ok(())
}

/// The rows on the cables out of each turbine, and the row on those out of all three.
fn rows(alloc: Global, site: &Site, arcs: &Arcs) -> Result<RowPool, Fail>
    requires { AreArcs site.now arcs.now }
{
    let mut pool = RowPool::new(alloc)?;
    list(&mut pool, site, arcs, RowKind::Out, [1].as_slice())?;
    list(&mut pool, site, arcs, RowKind::Out, [2].as_slice())?;
    list(&mut pool, site, arcs, RowKind::Out, [3].as_slice())?;
    list(&mut pool, site, arcs, RowKind::Cut, [1, 2, 3].as_slice())?;
    Ok(pool)
}

#[test]
fn all_rows_are_lifted(rt: HostRuntime) -> Result<(), Fail> {
    let site = site_of(rt.alloc(), FORK)?;
    let arcs = Arcs::new(rt.alloc(), &site)?;
    let pool = rows(rt.alloc(), &site, &arcs)?;
    let decisions = Decisions::new(rt.alloc(), arcs.len())?;
    let mut weights = Weights::new(rt.alloc())?;
    assert!(&rt; lawful(&pool, &weights));
    lift_all(rt.alloc(), &site, &arcs, &pool, &decisions, &mut weights)?;
    assert!(&rt; weigh(&site, &arcs, &pool, &decisions, &weights) >= 1864 * UNIT);
    Ok(())
}

#[test]
fn a_row_is_raised_by_the_arcs_that_are_left(rt: HostRuntime) -> Result<(), Fail> {
    let site = site_of(rt.alloc(), FORK)?;
    let arcs = Arcs::new(rt.alloc(), &site)?;
    let pool = rows(rt.alloc(), &site, &arcs)?;
    let mut decisions = Decisions::new(rt.alloc(), arcs.len())?;
    let mut weights = Weights::new(rt.alloc())?;
    assert!(&rt; arcs.len() == 9);
    assert!(&rt; pool.len() == 4);
    weights.push(0, -UNIT)?;
    assert!(&rt; lawful(&pool, &weights));
    assert!(&rt; slack(&site, &arcs, &pool, &weights, 1) == 501 * UNIT);
    decisions.set(1, Mark::Unused);
    decisions.set(2, Mark::Unused);
    decisions.set(3, Mark::Used);
    lift_all(rt.alloc(), &site, &arcs, &pool, &decisions, &mut weights)?;
    // A is left by arc 0 alone, the rows of B and of all three hold a used arc.
    assert_eq!(rt;
        weights.as_slice(),
        [(0, 1000 * UNIT), (2, 500 * UNIT)].as_slice()
    );
    Ok(())
}
