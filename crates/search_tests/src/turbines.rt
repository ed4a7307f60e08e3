//! The weights of turbines, with arcs left out or free of cost.

ghost use Rattle.std.specs.Prelude.{All, IfOk, OnOk};
ghost use Rattle.cable_definitions.specs.Arcs.{AreArcs};
ghost use Rattle.cable_definitions.specs.Row.{IsWellFormed};

use cable_definitions::row::RowKind;
use cable_rows::{RowPool, row_form};
use candidate_cables::Arcs;
use node_works::{Decisions, Mark, Weights};
use sample_sites::{FORK, site_of};
use site_model::Site;
use std::alloc::Global;
use std::test::Fail;
use turbine_weights::weigh_turbines;

/// What a cost of one unit weighs.
const UNIT: i128 = 1_048_576;

/// The fork, where cables cost nothing.
const FREE: &str =
    "site 1\nmode tree\ntype 400 0\nsubstation S 0 0 4 10000\nturbine A 0 1000 100\nturbine B -300 1400 100\nturbine C 300 1400 100\nend site\n";

/// Lists a row that has to be well formed among such rows.
fn list(
    pool: &mut RowPool,
    site: &Site,
    arcs: &Arcs,
    kind: RowKind,
    member: u32,
) -> Result<(), Fail>
    requires arcs { AreArcs site.now arcs.now }
    requires before { All (IsWellFormed site.now arcs.now) pool.old }
    ensures { OnOk result (All (IsWellFormed site.now arcs.now) pool.new) }
{
    let members = [member];
    row_form(site, arcs, kind, members.as_slice())?;
    pool.add(site, arcs, kind, members.as_slice())?;
    Ok(())
}

/// Rows 1, 2 and 4 on the cables out of B, A and C, row 5 on those out of B again, and two rows that no weight stands on.
fn rows(alloc: Global, site: &Site, arcs: &Arcs) -> Result<RowPool, Fail>
    requires { AreArcs site.now arcs.now }
    ensures { IfOk result (All (IsWellFormed site.now arcs.now)) }
{
    let mut pool = RowPool::new(alloc)?;
    list(&mut pool, site, arcs, RowKind::Inlet, 0)?;
    list(&mut pool, site, arcs, RowKind::Out, 2)?;
    list(&mut pool, site, arcs, RowKind::Out, 1)?;
    list(&mut pool, site, arcs, RowKind::Flow, 3)?;
    list(&mut pool, site, arcs, RowKind::Out, 3)?;
    list(&mut pool, site, arcs, RowKind::Out, 2)?;
    Ok(pool)
}

#[test]
fn all_arcs_free(rt: HostRuntime) -> Result<(), Fail> {
    let site = site_of(rt.alloc(), FORK)?;
    let arcs = Arcs::new(rt.alloc(), &site)?;
    let pool = rows(rt.alloc(), &site, &arcs)?;
    let decisions = Decisions::new(rt.alloc(), arcs.len())?;
    let mut weights = Weights::new(rt.alloc())?;
    weights.push(3, 7)?;
    weigh_turbines(&site, &arcs, &pool, &decisions, &mut weights);
    let cost = 500 * UNIT;
    assert_eq!(rt;
        weights.as_slice(),
        [(1, cost), (2, cost), (4, cost)].as_slice()
    );
    Ok(())
}

#[test]
fn unused_arcs_are_left_out(rt: HostRuntime) -> Result<(), Fail> {
    let site = site_of(rt.alloc(), FORK)?;
    let arcs = Arcs::new(rt.alloc(), &site)?;
    let pool = rows(rt.alloc(), &site, &arcs)?;
    let mut decisions = Decisions::new(rt.alloc(), arcs.len())?;
    let mut weights = Weights::new(rt.alloc())?;
    assert!(&rt; arcs.len() == 9);
    decisions.set(1, Mark::Unused);
    decisions.set(2, Mark::Unused);
    weigh_turbines(&site, &arcs, &pool, &decisions, &mut weights);
    let cost = 500 * UNIT;
    assert_eq!(rt;
        weights.as_slice(),
        [(1, cost), (2, 1000 * UNIT), (4, cost)].as_slice()
    );
    decisions.set(0, Mark::Unused);
    weigh_turbines(&site, &arcs, &pool, &decisions, &mut weights);
    assert_eq!(rt; weights.as_slice(), [(1, cost), (4, cost)].as_slice());
    Ok(())
}

#[test]
fn arcs_that_cost_nothing(rt: HostRuntime) -> Result<(), Fail> {
    let site = site_of(rt.alloc(), FREE)?;
    let arcs = Arcs::new(rt.alloc(), &site)?;
    let pool = rows(rt.alloc(), &site, &arcs)?;
    let decisions = Decisions::new(rt.alloc(), arcs.len())?;
    let mut weights = Weights::new(rt.alloc())?;
    weigh_turbines(&site, &arcs, &pool, &decisions, &mut weights);
    assert!(&rt; weights.as_slice().is_empty());
    Ok(())
}
