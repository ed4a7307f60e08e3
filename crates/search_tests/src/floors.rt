//! The cheapest in-trees of small sites, and the sets that prove them.

use candidate_cables::Arcs;
use intree_floor::{Floor, SetList, floor, has_no_bends};
use sample_sites::{FORK, site_of};
use std::test::Fail;

/// Two turbines side by side, far from the substation. The free arcs with their lengths are 0 A>S 1000, 1 A>B 100, 2 B>S 1005 and 3 B>A 100.
pub(crate) const SIDE_BY_SIDE: &str =
    "site 1\nmode tree\ntype 400 1\nsubstation S 0 0 4 10000\nturbine A 0 1000 100\nturbine B 100 1000 100\nend site\n";

/// The same, with the ways to the substation closed.
pub(crate) const CUT_OFF: &str =
    "site 1\nmode tree\ntype 400 1\nsubstation S 0 0 4 10000\nturbine A 0 1000 100\nturbine B 100 1000 100\nclosed A S\nclosed B S\nend site\n";

/// The sum of the weights.
fn sum_of(sets: &SetList) -> u64 {
    let mut sum = 0u64;
    for set in sets.as_slice() {
        sum = sum.saturating_add(set.weight);
    }
    sum
}

#[test]
fn a_fork(rt: HostRuntime) -> Result<(), Fail> {
    let alloc = rt.alloc();
    let site = site_of(alloc, FORK)?;
    let arcs = Arcs::new(alloc, &site)?;
    assert!(&rt; has_no_bends(&site));
    match floor(alloc, &site, &arcs)? {
        Floor::Least { tree, sets, total } => {
            assert_eq!(rt; total, 2000);
            assert_eq!(rt; sum_of(&sets), 2000);
            assert_eq!(rt; tree.as_slice(), [0, 4, 7].as_slice());
        }
        Floor::NoTree { .. } => return Err("there is a tree".into()),
    }
    Ok(())
}

#[test]
fn two_turbines_side_by_side(rt: HostRuntime) -> Result<(), Fail> {
    let alloc = rt.alloc();
    let site = site_of(alloc, SIDE_BY_SIDE)?;
    let arcs = Arcs::new(alloc, &site)?;
    assert!(&rt; has_no_bends(&site));
    match floor(alloc, &site, &arcs)? {
        Floor::Least { tree, sets, total } => {
            assert_eq!(rt; total, 1100);
            assert_eq!(rt; sum_of(&sets), 1100);
            assert_eq!(rt; tree.as_slice(), [0, 3].as_slice());
        }
        Floor::NoTree { .. } => return Err("there is a tree".into()),
    }
    Ok(())
}

#[test]
fn no_way_to_the_substation(rt: HostRuntime) -> Result<(), Fail> {
    let alloc = rt.alloc();
    let site = site_of(alloc, CUT_OFF)?;
    let arcs = Arcs::new(alloc, &site)?;
    assert!(&rt; has_no_bends(&site));
    match floor(alloc, &site, &arcs)? {
        Floor::Least { .. } => return Err("there is no tree".into()),
        Floor::NoTree { set } => assert_eq!(rt; set.as_slice(), [1, 2].as_slice()),
    }
    Ok(())
}
