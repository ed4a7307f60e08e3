//! Searches of small sites to their claims, and a sink that fails.

ghost use Rattle.std.specs.Prelude.{◌≤◌};

use cable_definitions::cable::Cable;
use cable_definitions::claim::Claim;
use cable_text::MemorySink;
use candidate_cables::Arcs;
use search_core::{Plan, SearchFault, search};
use site_model::{Mode, RawKind, Site, SiteBuilder, Version};
use std::alloc::Global;
use std::test::Fail;

/// The name of a point, its coordinates and its kind.
type RawPoint = (u8, i128, i128, RawKind);

/// A substation of four feeders and 10,000 power units.
const SUBSTATION: RawPoint = (b'S', 0, 0, RawKind::Substation(4, 10000));

/// Three turbines of 100 power units, of which the first is nearest to the substation.
const NEAR: RawPoint = (b'A', 0, 1000, RawKind::Turbine(100));

const LEFT: RawPoint = (b'B', -300, 1400, RawKind::Turbine(100));

const RIGHT: RawPoint = (b'C', 300, 1400, RawKind::Turbine(100));

/// The site of these points with one cable type.
fn site_of(
    alloc: Global,
    mode: Mode,
    capacity: i128,
    price: i128,
    points: &[RawPoint],
) -> Result<Site, Fail> {
    let mut builder = SiteBuilder::new(alloc, Version::One, mode)?;
    builder.add_type(capacity, price, None)?;
    for (name, x, y, kind) in points {
        builder.add_point(&[*name], *x, *y, *kind)?;
    }
    Ok(builder.build()?)
}

/// What is found for a site within so many works.
fn plan_of(alloc: Global, site: &Site, budget: u32, out: &mut MemorySink) -> Result<Plan, Fail>
    requires some { 1 ≤ budget }
    requires most { budget ≤ 50000 }
{
    let arcs = Arcs::new(alloc, site)?;
    Ok(search(alloc, site, &arcs, budget, 1, out)?)
}

/// What is claimed of a site within so many works.
fn claim_of(alloc: Global, site: &Site, budget: u32) -> Result<Claim, Fail>
    requires some { 1 ≤ budget }
    requires most { budget ≤ 50000 }
{
    let mut out = MemorySink::new(alloc, 1 << 20, Vec::new(alloc))?;
    Ok(plan_of(alloc, site, budget, &mut out)?.claim)
}

#[test]
fn the_cheapest_costs(rt: HostRuntime) -> Result<(), Fail> {
    let alloc = rt.alloc();
    let fork = [SUBSTATION, NEAR, LEFT, RIGHT];
    for (mode, capacity, cost) in [
        (Mode::Tree, 400, 2000),
        (Mode::Tree, 100, 3864),
        (Mode::Strings, 400, 2100),
    ] {
        let site = site_of(alloc, mode, capacity, 1, &fork)?;
        assert_eq!(&rt; claim_of(alloc, &site, 1023)?, Claim::Optimal(cost));
    }
    Ok(())
}

#[test]
fn sites_without_layouts(rt: HostRuntime) -> Result<(), Fail> {
    let alloc = rt.alloc();
    for (feeders, power) in [(0, 10000), (1, 10000), (4, 299)] {
        let substation = (b'S', 0, 0, RawKind::Substation(feeders, power));
        let site = site_of(alloc, Mode::Tree, 200, 1, &[substation, NEAR, LEFT, RIGHT])?;
        assert_eq!(&rt; claim_of(alloc, &site, 1023)?, Claim::Infeasible);
    }
    Ok(())
}

/// Three turbines of 100 power units at three corners of a square, the substation at the fourth.
const CORNERS: [RawPoint; 3] = [
    (b'A', 0, 1000, RawKind::Turbine(100)),
    (b'B', 1000, 0, RawKind::Turbine(100)),
    (b'C', 1000, 1000, RawKind::Turbine(100)),
];

/// One work proves the cost of the cheapest in-tree, 2,000; with a bend more than the least costs out of the turbines,
/// 1,500; a part is left where no layout is known.
#[test]
fn one_work(rt: HostRuntime) -> Result<(), Fail> {
    let alloc = rt.alloc();
    let fork = site_of(alloc, Mode::Tree, 400, 1, &[SUBSTATION, NEAR, LEFT, RIGHT])?;
    assert_eq!(&rt; claim_of(alloc, &fork, 1)?, Claim::Optimal(2000));
    let bend = (b'X', 50000, 50000, RawKind::Bend);
    let with_bend = site_of(
        alloc,
        Mode::Tree,
        400,
        1,
        &[SUBSTATION, NEAR, LEFT, RIGHT, bend],
    )?;
    let claim = claim_of(alloc, &with_bend, 1)?;
    assert!(&rt; matches!(claim, Claim::Gap { cost: 2000, bound } if 1500 < bound));

    let little_power = (b'S', 0, 0, RawKind::Substation(4, 250));
    let [first, second, third] = CORNERS;
    let square = site_of(
        alloc,
        Mode::Tree,
        400,
        1,
        &[little_power, first, second, third],
    )?;
    let open = Claim::Partial {
        bound: 3000,
        stuck: 2,
    };
    assert_eq!(&rt; claim_of(alloc, &square, 1)?, open);
    assert_eq!(&rt; claim_of(alloc, &square, 1023)?, Claim::Infeasible);

    let alone = site_of(alloc, Mode::Tree, 400, 1, &[NEAR])?;
    assert_eq!(&rt; claim_of(alloc, &alone, 1)?, Claim::Infeasible);
    Ok(())
}

/// The items of a turbine 500 metres from its substation: the layout to begin with costs what the weight
/// of node 1 proves.
const ITEMS: &str =
    "row out 1\nrow inlet 0\nrow inlet 1\nrow flow 1\nrow power 0\nrow cut 1\nwork 1 1\nby 0 52428800000\nstop\n";

#[test]
fn one_turbine(rt: HostRuntime) -> Result<(), Fail> {
    let alloc = rt.alloc();
    let turbine = (b'A', 300, 400, RawKind::Turbine(100));
    let site = site_of(alloc, Mode::Tree, 400, 100, &[SUBSTATION, turbine])?;
    let mut out = MemorySink::new(alloc, 1000, Vec::new(alloc))?;
    let plan = plan_of(alloc, &site, 1023, &mut out)?;
    assert_eq!(&rt; plan.claim, Claim::Optimal(50000));
    let cable = Cable {
        from: 1,
        to: 0,
        grade: 0,
    };
    assert_eq!(&rt; plan.layout.cables(), [cable].as_slice());
    assert_eq!(&rt; out.taken(), ITEMS.as_bytes());
    Ok(())
}

#[test]
fn a_failing_sink_ends_the_search(rt: HostRuntime) -> Result<(), Fail> {
    let alloc = rt.alloc();
    let turbine = (b'A', 300, 400, RawKind::Turbine(100));
    let site = site_of(alloc, Mode::Tree, 400, 100, &[SUBSTATION, turbine])?;
    let arcs = Arcs::new(alloc, &site)?;
    let mut out = MemorySink::new(alloc, 50, Vec::new(alloc))?;
    match search(alloc, &site, &arcs, 1023, 1, &mut out) {
        Ok(_) => assert!(&rt; false),
        Err(fault) => assert_eq!(&rt; fault, SearchFault::Write),
    }
    assert_eq!(&rt;
        out.taken(),
        b"row out 1\nrow inlet 0\nrow inlet 1\nrow flow 1\nrow p".as_slice()
    );
    Ok(())
}
