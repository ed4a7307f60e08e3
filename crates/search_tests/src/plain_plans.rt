//! The cheapest layouts of small sites, by every choice.

use plain_planner::{cheapest_layout, is_plain};
use sample_sites::{FORK, site_of};
use site_model::Site;
use std::alloc::Global;
use std::process::Abort;
use std::test::Fail;

/// The fork in strings mode.
const FORK_STRINGS: &str =
    "site 1\nmode strings\ntype 400 1\nsubstation S 0 0 4 10000\nturbine A 0 1000 100\nturbine B -300 1400 100\nturbine C 300 1400 100\nend site\n";

/// A site, the cost of its cheapest layout and the number of its cables.
const CHEAPEST: [(&str, Option<(u64, usize)>); 7] = [
    (
        "site 1\nmode tree\ntype 400 1\nsubstation S 0 0 4 10000\nturbine A 300 400 100\nend site\n",
        Some((500, 1)),
    ),
    (
        "site 1\nmode tree\ntype 400 1\nsubstation S 0 0 4 10000\nturbine A 1 1 100\nend site\n",
        Some((2, 1)),
    ),
    // No turbine, and no substation.
    (
        "site 1\nmode tree\ntype 400 1\nsubstation P 0 0 4 10000\nend site\n",
        Some((0, 0)),
    ),
    (
        "site 1\nmode tree\ntype 400 1\nturbine P 0 0 100\nend site\n",
        None,
    ),
    (FORK, Some((2000, 3))),
    (FORK_STRINGS, Some((2100, 3))),
    // Closed pairs lead round.
    (
        "site 1\nmode tree\ntype 400 1\nsubstation S1 0 0 4 10000\nsubstation S2 1000 0 4 10000\nturbine A 0 1000 100\nturbine B 1000 1000 100\nclosed A S1\nclosed B S2\nend site\n",
        Some((2415, 2)),
    ),
];

/// The cost of the site's cheapest layout and the number of its cables.
fn planned(rt: &impl Abort, alloc: Global, lines: &str) -> Result<Option<(u64, usize)>, Fail> {
    let site = site_of(alloc, lines)?;
    assert!(rt; is_plain(&site));
    match cheapest_layout(alloc, &site)? {
        None => Ok(None),
        Some((layout, cost)) => Ok(Some((cost, layout.cables().len()))),
    }
}

#[test]
fn the_cheapest_layouts_of_small_sites(rt: HostRuntime) -> Result<(), Fail> {
    for (lines, want) in CHEAPEST {
        assert!(&rt; planned(&rt, rt.alloc(), lines)? == want, "{lines}");
    }
    Ok(())
}

/// The cheapest cable from A to the substation, for a load; nothing on a site without them.
fn cheapest_of_first(site: &Site, load: u32) -> Option<(u32, u64)> {
    if site.points().len() == 4 {
        return site.cheapest(1, 0, load);
    }
    None
}

#[test]
fn the_first_cables_of_a_fork(rt: HostRuntime) -> Result<(), Fail> {
    for lines in [FORK, FORK_STRINGS] {
        let site = site_of(rt.alloc(), lines)?;
        assert!(&rt; site.nearest() == Some(1500));
        assert!(&rt; cheapest_of_first(&site, 400) == Some((0, 1000)));
        assert!(&rt; cheapest_of_first(&site, 401).is_none());
        assert!(&rt; site.points().len() == 4);
    }
    Ok(())
}
