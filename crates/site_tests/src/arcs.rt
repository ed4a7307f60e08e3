//! The candidate arcs of a small site.

use candidate_cables::Arcs;
use sample_sites::site_of;
use std::test::Fail;

/// A substation and two turbines.
const TWO_TURBINES: &str =
    "site 1\nmode tree\ntype 400 1\nsubstation S 0 0 4 10000\nturbine A 0 1000 100\nturbine B -300 1400 100\nend site\n";

#[test]
fn the_arcs_of_a_small_site(rt: HostRuntime) -> Result<(), Fail> {
    let alloc = rt.alloc();
    let site = site_of(alloc, TWO_TURBINES)?;
    let arcs = Arcs::new(alloc, &site)?;
    assert!(&rt; arcs.len() == 4);
    assert!(&rt; arcs.get(0).length == 1000);
    assert!(&rt; arcs.out_of(2) == (2, 4));
    assert!(&rt; arcs.number(2, 0) == Some(2));
    assert!(&rt; arcs.number(0, 2) == None);
    assert_eq!(rt; Arcs::into(&arcs, 0), [0, 2].as_slice());
    assert!(&rt; arcs.incompatible(&site, 0, 1));
    assert!(&rt; !arcs.incompatible(&site, 0, 2));
    Ok(())
}
