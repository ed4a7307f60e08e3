//! Parts that are grown turbine by turbine until one is blocked.

use layout_meaning::{Cable, JoinFault, Layout, LayoutFull, PartialLayout, Rule, part_blocked};
use sample_sites::site_of;
use std::alloc::{AllocError, Global};
use std::test::Fail;

/// A substation with one feeder, three turbines that stand with it on the corners of a square, and a fourth turbine behind the first. A cable
/// bears the power of two turbines.
const SQUARE: &str =
    "site 1\nmode tree\ntype 200 1\nsubstation S 0 0 1 10000\nturbine A 0 1000 100\nturbine B 1000 0 100\nturbine C 1000 1000 100\nturbine D 0 2000 100\nend site\n";

/// A substation with one feeder and two turbines; the type of greater capacity comes first.
const TWO_TYPES: &str =
    "site 1\nmode tree\ntype 200 3\ntype 100 2\nsubstation S 0 0 1 10000\nturbine A 0 1000 100\nturbine B 1000 0 100\nend site\n";

/// The cables that join the first two turbines.
const JOINED: [Cable; 2] = [
    Cable {
        from: 1,
        to: 0,
        grade: 0,
    },
    Cable {
        from: 2,
        to: 1,
        grade: 0,
    },
];

/// Joins the first two turbines, and tells which are blocked or joined before, between and after.
fn joins(part: &mut PartialLayout) -> [bool; 10] {
    [
        part.blocked(3),
        part.try_join(1, 0).is_ok(),
        part.joined(1),
        part.joined(0),
        part.blocked(3),
        part.try_join(2, 1).is_ok(),
        part.blocked(3),
        part.blocked(2),
        part.blocked(0),
        part.blocked(5),
    ]
}

#[test]
fn joins_turbines_until_one_is_blocked(rt: HostRuntime) -> Result<(), Fail> {
    let alloc = rt.alloc();
    let site = site_of(alloc, SQUARE)?;
    let mut part = PartialLayout::new(alloc, &site)?;
    let want = [
        false, true, true, false, false, true, true, false, false, false,
    ];
    assert_eq!(rt; joins(&mut part), want);
    assert!(&rt; part.layout().cables() == JOINED.as_slice());
    assert!(&rt; part.into_layout().cables() == JOINED.as_slice());
    Ok(())
}

#[test]
fn refuses_arcs(rt: HostRuntime) -> Result<(), Fail> {
    let alloc = rt.alloc();
    let site = site_of(alloc, SQUARE)?;
    let mut part = PartialLayout::new(alloc, &site)?;
    assert_eq!(rt; part.try_join(1, 0), Ok(()));
    let refusals = [
        (1, 0, JoinFault::Joined),
        (0, 1, JoinFault::Joined),
        (5, 9, JoinFault::Joined),
        (2, 2, JoinFault::Target),
        (2, 3, JoinFault::Target),
        (2, 5, JoinFault::Target),
        (4, 0, JoinFault::Candidate),
        (2, 0, JoinFault::Breaks(Rule::Feeders, 0, 0)),
    ];
    for (from, to, fault) in refusals {
        assert_eq!(rt; part.try_join(from, to), Err(fault));
    }
    assert_eq!(rt; part.try_join(2, 1), Ok(()));
    for (to, fault) in [
        (0, JoinFault::Breaks(Rule::Feeders, 0, 0)),
        (1, JoinFault::Breaks(Rule::Overload, 1, 0)),
        (2, JoinFault::Breaks(Rule::Overload, 1, 0)),
    ] {
        assert_eq!(rt; part.try_join(3, to), Err(fault));
    }
    Ok(())
}

#[test]
fn chooses_the_cheapest_types_anew(rt: HostRuntime) -> Result<(), Fail> {
    let alloc = rt.alloc();
    let site = site_of(alloc, TWO_TYPES)?;
    let mut part = PartialLayout::new(alloc, &site)?;
    let cable = |from, to, grade| Cable { from, to, grade };
    assert_eq!(rt; part.try_join(1, 0), Ok(()));
    assert_eq!(rt; part.layout().cables(), [cable(1, 0, 1)].as_slice());
    assert_eq!(rt; part.try_join(2, 1), Ok(()));
    assert_eq!(rt;
        part.layout().cables(),
        [cable(1, 0, 0), cable(2, 1, 1)].as_slice()
    );
    Ok(())
}

#[test]
fn only_grown_parts_block(rt: HostRuntime) -> Result<(), Fail> {
    let alloc = rt.alloc();
    let site = site_of(alloc, SQUARE)?;
    let mut lost = Layout::new(alloc)?;
    let from_b = Cable {
        from: 2,
        to: 1,
        grade: 0,
    };
    assert_eq!(rt; lost.push(from_b), Ok(()));
    assert!(&rt; !part_blocked(&site, &lost, 3));
    Ok(())
}

#[test]
fn takes_256_cables(rt: HostRuntime) -> Result<(), AllocError> {
    let mut layout = Layout::new(rt.alloc())?;
    for from in 0..256u32 {
        let cable = Cable {
            from: 255 - from,
            to: 256,
            grade: 0,
        };
        assert_eq!(rt; layout.push(cable), Ok(()));
    }
    let further = Cable {
        from: 0,
        to: 1,
        grade: 0,
    };
    assert_eq!(rt; layout.push(further), Err(LayoutFull));
    layout.arrange();
    for (from, cable) in layout.cables().iter().enumerate() {
        assert_eq!(rt; cable.from as usize, from);
    }
    Ok(())
}
