//! The rows of the cheapest in-tree, with what their weights are worth.

use crate::floors::{CUT_OFF, SIDE_BY_SIDE};
use bound_value::weigh;
use cable_definitions::row::Why;
use cable_rows::{RowKind, RowPool};
use candidate_cables::Arcs;
use floor_rows::list_floor_rows;
use intree_floor::has_no_bends;
use node_reasons::is_dead;
use node_works::{Decisions, Mark};
use sample_sites::site_of;
use std::test::Fail;

/// What a cost of one unit weighs.
const UNIT: i128 = 1_048_576;

#[test]
fn two_turbines_side_by_side(rt: HostRuntime) -> Result<(), Fail> {
    let alloc = rt.alloc();
    let site = site_of(alloc, SIDE_BY_SIDE)?;
    let arcs = Arcs::new(alloc, &site)?;
    let mut pool = RowPool::new(alloc)?;
    assert!(&rt; has_no_bends(&site));
    let weights = list_floor_rows(alloc, &site, &arcs, &mut pool)?;
    assert!(&rt; pool.len() <= 3);
    let mut decisions = Decisions::new(alloc, arcs.len())?;
    let value = weigh(&site, &arcs, &pool, &decisions, &weights);
    assert_eq!(rt; value, 1100 * UNIT);
    assert!(&rt; arcs.len() == 4);
    decisions.set(3, Mark::Unused);
    let value = weigh(&site, &arcs, &pool, &decisions, &weights);
    assert!(&rt; value >= 1100 * UNIT);
    Ok(())
}

#[test]
fn no_way_to_the_substation(rt: HostRuntime) -> Result<(), Fail> {
    let alloc = rt.alloc();
    let site = site_of(alloc, CUT_OFF)?;
    let arcs = Arcs::new(alloc, &site)?;
    let mut pool = RowPool::new(alloc)?;
    assert!(&rt; has_no_bends(&site));
    let weights = list_floor_rows(alloc, &site, &arcs, &mut pool)?;
    assert!(&rt; weights.as_slice().is_empty());
    assert!(&rt; pool.len() == 1);
    assert!(&rt; pool.kind(0) == RowKind::Cut);
    assert_eq!(rt; pool.members(0), [1, 2].as_slice());
    let decisions = Decisions::new(alloc, arcs.len())?;
    assert!(&rt; is_dead(&site, &arcs, &pool, &decisions, 0, Why::Row(0)));
    Ok(())
}
