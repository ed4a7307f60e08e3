//! Dead nodes with their reasons, and the layout of a full node.

use crate::tables::{listed, marked};
use cable_rows::RowKind;
use candidate_cables::Arcs;
use layout_meaning::{Cable, Layout};
use node_reasons::{Why, find_dead, full_layout, is_dead, is_full};
use node_works::Mark;
use sample_sites::{FORK, site_of};
use std::alloc::Global;
use std::test::Fail;

/// Two arcs back and forth, the arcs out of A, and none.
const BACK: &[(u32, Mark)] = &[(1, Mark::Used), (4, Mark::Used)];

const ALONE: &[(u32, Mark)] = &[(0, Mark::Unused), (1, Mark::Unused), (2, Mark::Unused)];

const FREE: &[(u32, Mark)] = &[];

/// Marks, a bound that isn't negative, a reason, and whether the node is dead by it.
const DEAD: [(&[(u32, Mark)], u32, Why, bool); 7] = [
    (BACK, 0, Why::Pair(1, 4), true),
    (BACK, 0, Why::Loop(1), true),
    (BACK, 0, Why::Loop(3), false),
    (BACK, 0, Why::Load(9), false),
    (ALONE, 0, Why::Row(0), true),
    (ALONE, 0, Why::Row(1), false),
    (FREE, 3865, Why::Ceiling, true),
];

/// Whether a node of the fork with the row on the cables out of A is dead by a reason, and the reason that is found.
fn reasons(
    alloc: Global,
    marks: &[(u32, Mark)],
    bound: u32,
    why: Why,
) -> Result<(bool, Option<Why>), Fail> {
    let site = site_of(alloc, FORK)?;
    let arcs = Arcs::new(alloc, &site)?;
    let rows: [(RowKind, &[u32]); 1] = [(RowKind::Out, &[1])];
    let pool = listed(alloc, &site, &arcs, &rows)?;
    let decisions = marked(alloc, &arcs, marks)?;
    let is_so = is_dead(&site, &arcs, &pool, &decisions, i128::from(bound), why);
    let found = find_dead(&site, &arcs, &pool, &decisions, i128::from(bound));
    Ok((is_so, found))
}

#[test]
fn reasons_of_a_fork(rt: HostRuntime) -> Result<(), Fail> {
    let alloc = rt.alloc();
    for (marks, bound, why, is_so) in DEAD {
        assert_eq!(rt; reasons(alloc, marks, bound, why)?.0, is_so);
    }
    for (marks, bound, found) in [(BACK, 0, Some(Why::Pair(1, 4))), (FREE, 3864, None)] {
        assert_eq!(rt; reasons(alloc, marks, bound, Why::Ceiling)?.1, found);
    }
    Ok(())
}

/// The cost and the cables of the layout of a full node of the fork in which these arcs are used.
fn full(alloc: Global, marks: &[(u32, Mark)]) -> Result<Option<(u64, Layout)>, Fail> {
    let site = site_of(alloc, FORK)?;
    let arcs = Arcs::new(alloc, &site)?;
    let decisions = marked(alloc, &arcs, marks)?;
    let mut layout = Layout::new(alloc)?;
    match is_full(&site, &arcs, &decisions) {
        None => Ok(None),
        Some(cost) => {
            full_layout(&site, &arcs, &decisions, &mut layout);
            Ok(Some((cost, layout)))
        }
    }
}

/// The cables of the full layout.
const CABLES: [Cable; 3] = [
    Cable {
        from: 1,
        to: 0,
        grade: 0,
    },
    Cable {
        from: 2,
        to: 1,
        grade: 0,
    },
    Cable {
        from: 3,
        to: 1,
        grade: 0,
    },
];

#[test]
fn the_full_layout_of_a_fork(rt: HostRuntime) -> Result<(), Fail> {
    let alloc = rt.alloc();
    assert!(&rt; full(alloc, &[(0, Mark::Used), (4, Mark::Used)])?.is_none());
    let used = [(0, Mark::Used), (4, Mark::Used), (7, Mark::Used)];
    match full(alloc, &used)? {
        None => assert!(&rt; false),
        Some((cost, layout)) => {
            assert!(&rt; cost == 2000 && layout.cables() == CABLES.as_slice());
        }
    }
    Ok(())
}
