//! Layouts that a search begins with, and layouts that are improved.

use candidate_cables::Arcs;
use layout_meaning::{Cable, Layout, Verdict, judge, part_blocked};
use sample_sites::{FORK, ONE_FEEDER, site_of};
use site_model::Site;
use start_layout::{Start, greedy, improve_layout};
use std::alloc::Global;
use std::test::Fail;

/// The fork with a cheap type and a dear one.
const TWO_TYPES: &str =
    "site 1\nmode tree\ntype 100 1\ntype 400 3\nsubstation S 0 0 4 10000\nturbine A 0 1000 100\nturbine B -300 1400 100\nturbine C 300 1400 100\nend site\n";

/// The same where the second type is dearer still.
const DEAR_TYPE: &str =
    "site 1\nmode tree\ntype 100 1\ntype 400 100\nsubstation S 0 0 4 10000\nturbine A 0 1000 100\nturbine B -300 1400 100\nturbine C 300 1400 100\nend site\n";

/// A layout of the cables with these starts, ends and types.
fn layout_of(alloc: Global, cables: &[(u32, u32, u32)]) -> Result<Layout, Fail> {
    let mut layout = Layout::new(alloc)?;
    for (from, to, grade) in cables {
        let _ = layout.push(Cable {
            from: *from,
            to: *to,
            grade: *grade,
        });
    }
    Ok(layout)
}

/// The costs of a legal layout and of what it is improved to, with that; None where one of them isn't legal.
fn improved(
    alloc: Global,
    site: &Site,
    cables: &[(u32, u32, u32)],
) -> Result<Option<(u64, u64, Layout)>, Fail> {
    let arcs = Arcs::new(alloc, site)?;
    let layout = layout_of(alloc, cables)?;
    let Verdict::Legal(before) = judge(site, &layout) else {
        return Ok(None);
    };
    let better = improve_layout(alloc, site, &arcs, &layout)?;
    match judge(site, &better) {
        Verdict::Broken(rule, a, b) => Ok(None),
        Verdict::Legal(after) => Ok(Some((before, after, better))),
    }
}

/// The joined, the settled, and the straight layout of a fork.
const JOINED: [(u32, u32, u32); 3] = [(1, 0, 0), (2, 1, 0), (3, 1, 0)];

const SETTLED: [(u32, u32, u32); 3] = [(3, 1, 0), (1, 0, 0), (2, 1, 0)];

const STRAIGHT: [(u32, u32, u32); 3] = [(1, 0, 0), (2, 0, 0), (3, 0, 0)];

/// The straight one with a dear type.
const DEAR: [(u32, u32, u32); 3] = [(1, 0, 1), (2, 0, 0), (3, 0, 0)];

/// Whether a layout of the site is improved from one cost to another, to these cables.
fn is_improved(
    alloc: Global,
    lines: &str,
    cables: &[(u32, u32, u32)],
    costs: (u64, u64),
    want: &[(u32, u32, u32)],
) -> Result<bool, Fail> {
    let site = site_of(alloc, lines)?;
    let wanted = layout_of(alloc, want)?;
    match improved(alloc, &site, cables)? {
        Some((before, after, better)) => {
            Ok((before, after) == costs && better.cables() == wanted.cables())
        }
        None => Ok(false),
    }
}

/// A site, a layout, the costs before and after, and what it is improved to: a settled one keeps its order.
const IMPROVED: [(&str, &[(u32, u32, u32)], (u64, u64), &[(u32, u32, u32)]); 3] = [
    (FORK, &STRAIGHT, (3864, 2000), &JOINED),
    (FORK, &SETTLED, (2000, 2000), &SETTLED),
    (TWO_TYPES, &DEAR, (5864, 3864), &STRAIGHT),
];

#[test]
fn layouts_are_improved(rt: HostRuntime) -> Result<(), Fail> {
    for (lines, cables, costs, want) in IMPROVED {
        assert!(&rt;
            is_improved(rt.alloc(), lines, cables, costs, want)?,
            "{costs:?}"
        );
    }
    Ok(())
}

/// What a search begins with: the cost of a layout, or the turbine that a part leaves.
#[derive(Drop)]
enum Beginning {
    Layout {
        layout: Layout,
        cost: u64,
    },
    Part {
        count: usize,
        turbine: u32,
        is_blocked: bool,
    },
}

/// What the search of a site begins with.
fn start_of(alloc: Global, lines: &str) -> Result<Beginning, Fail> {
    let site = site_of(alloc, lines)?;
    let arcs = Arcs::new(alloc, &site)?;
    match greedy(alloc, &site, &arcs)? {
        Start::Found(layout, cost) => Ok(Beginning::Layout { layout, cost }),
        Start::Stuck { part, turbine } => Ok(Beginning::Part {
            count: part.cables().len(),
            turbine,
            is_blocked: part_blocked(&site, &part, turbine),
        }),
    }
}

/// Two feeders; a cable bears two turbines. The straight layout needs four feeders, and a growth joins D behind A, which shuts C off from B.
const TWO_FEEDERS: &str =
    "site 1\nmode tree\ntype 200 1\nsubstation S 0 0 2 10000\nturbine A 0 1000 100\nturbine B 1100 1500 100\nturbine C -1100 2500 100\nturbine D 0 3000 100\nend site\n";

/// A site, the cost of the layout that a search begins with, and its cables where they are told: turbines are joined where that saves most,
/// or the straight layout costs less, or a layout is searched where growth gets stuck, or no turbine needs a cable.
const BEGUN: [(&str, u64, Option<&[(u32, u32, u32)]>); 4] = [
    (FORK, 2000, Some(&JOINED)),
    (DEAR_TYPE, 3864, None),
    (TWO_FEEDERS, 6150, None),
    (
        "site 1\nmode tree\ntype 200 1\nsubstation S 0 0 1 10000\nend site\n",
        0,
        Some(&[]),
    ),
];

/// Whether a search begins with a layout of this cost, and of these cables where they are told.
fn begins_with(
    alloc: Global,
    begun: Beginning,
    wanted: u64,
    cables: Option<&[(u32, u32, u32)]>,
) -> Result<bool, Fail> {
    match (begun, cables) {
        (Beginning::Part { .. }, _) => Ok(false),
        (Beginning::Layout { cost, .. }, None) => Ok(cost == wanted),
        (Beginning::Layout { layout, cost }, Some(cables)) => {
            let told = layout_of(alloc, cables)?;
            Ok(cost == wanted && layout.cables() == told.cables())
        }
    }
}

#[test]
fn layouts_to_begin_with(rt: HostRuntime) -> Result<(), Fail> {
    let alloc = rt.alloc();
    for (lines, cost, cables) in BEGUN {
        assert!(&rt;
            begins_with(alloc, start_of(alloc, lines)?, cost, cables)?,
            "{lines}"
        );
    }
    Ok(())
}

#[test]
fn a_turbine_too_many_is_blocked(rt: HostRuntime) -> Result<(), Fail> {
    let is_so = match start_of(rt.alloc(), ONE_FEEDER)? {
        Beginning::Layout { .. } => false,
        Beginning::Part {
            count,
            is_blocked,
            ..
        } => count == 2 && is_blocked,
    };
    assert!(&rt; is_so);
    Ok(())
}

#[test]
fn a_turbine_alone_is_blocked(rt: HostRuntime) -> Result<(), Fail> {
    let alone = "site 1\nmode tree\ntype 200 1\nturbine A 0 0 100\nend site\n";
    let is_so = match start_of(rt.alloc(), alone)? {
        Beginning::Layout { .. } => false,
        Beginning::Part { count, turbine, .. } => count == 0 && turbine == 0,
    };
    assert!(&rt; is_so);
    Ok(())
}
