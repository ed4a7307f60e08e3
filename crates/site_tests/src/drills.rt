//! Generated sites.

use drill_site::drill_site;
use site_model::{Kind, Site};
use std::alloc::AllocError;

/// How many turbines, substations and bends a site has.
fn counts(site: &Site) -> (usize, usize, usize) {
    let points = site.points();
    let turbines = points
        .iter()
        .filter(|point| point.kind.is_turbine())
        .count();
    let substations = points
        .iter()
        .filter(|point| point.kind.is_substation())
        .count();
    let bends = points.iter().filter(|point| point.kind.is_bend()).count();
    (turbines, substations, bends)
}

/// Some turbines of the site from 7 with 30 turbines: the numbers of their points, their names, coordinates and powers.
const TURBINES: [(usize, &str, i64, i64, u32); 4] = [
    (2, "T0", 369, 168, 11),
    (3, "T1", 1_028, 198, 12),
    (15, "T13", 3_214, 1_099, 8),
    (31, "T29", 9_079, 2_329, 12),
];

#[test]
fn a_generated_site_has_its_parts(rt: HostRuntime) -> Result<(), AllocError> {
    let site = drill_site(rt.alloc(), 7, 30)?;
    assert!(rt; counts(&site) == (30, 2, 4));
    assert_eq!(rt; site.types().len(), 3);
    assert_eq!(rt; site.obstacles().len(), 1);
    assert!(rt; site.pairs().is_empty());
    Ok(())
}

#[test]
fn turbines_are_drawn(rt: HostRuntime) -> Result<(), AllocError> {
    let site = drill_site(rt.alloc(), 7, 30)?;
    for (number, name, x, y, power) in TURBINES {
        let Some(point) = site.points().get(number) else {
            assert!(rt; false, "{number}");
            continue;
        };
        assert!(rt; point.name.as_slice() == name.as_bytes(), "{name}");
        assert_eq!(rt; point.at.x, x, "{name}");
        assert_eq!(rt; point.at.y, y, "{name}");
        assert!(rt; point.kind == Kind::Turbine { power }, "{name}");
    }
    Ok(())
}

#[test]
fn the_greatest_number_has_a_site(rt: HostRuntime) -> Result<(), AllocError> {
    let site = drill_site(rt.alloc(), u64::MAX, 200)?;
    assert!(rt; counts(&site) == (200, 2, 4));
    Ok(())
}
