//! Plans of small sites, and how each ends.

use crate::cables::Cables;
use run_support::{FIRST, FORK, ONE_FEEDER, Ran, ran_with, run_on};
use std::alloc::{AllocError, Global};

/// What a plan of the first site is.
const FIRST_PLAN: &str =
    "site 1\nmode tree\ntype 400 100\nsubstation S 0 0 4 10000\nturbine A 300 400 100\nend site\nbudget 1023\nrow out 1\nrow inlet 0\nrow inlet 1\nrow flow 1\nrow power 0\nrow cut 1\nwork 1 1\nby 0 52428800000\nstop\nlayout 1\ncable A S 0\noptimal 50000\nend document\n";

/// A site in its lines, the status, and how its plan ends.
const PLANS: [(&str, u8, &str); 28] = [
    (FIRST, 0, "layout 1\ncable A S 0\noptimal 50000\n"),
    (
        "site 1\nmode tree\ntype 400 1\nsubstation S 0 0 4 10000\nturbine A 1 1 100\nend site\n",
        0,
        "layout 1\ncable A S 0\noptimal 2\n",
    ),
    (
        "site 1\nmode tree\ntype 400 1\nsubstation S 0 0 4 10000\nend site\n",
        0,
        "layout 0\noptimal 0\n",
    ),
    (
        "site 1\nmode tree\ntype 400 1\nend site\n",
        0,
        "layout 0\noptimal 0\n",
    ),
    (
        "site 1\nmode tree\ntype 400 1\nturbine A 0 0 100\nend site\n",
        5,
        "layout 0\ninfeasible\n",
    ),
    // B's straight cable would pass over A, so A's cable carries both.
    (
        "site 1\nmode tree\ntype 100 1\ntype 200 3\nsubstation S 0 0 4 10000\nturbine A 1000 0 100\nturbine B 2000 0 100\nend site\n",
        0,
        "layout 2\ncable A S 1\ncable B A 0\noptimal 4000\n",
    ),
    (
        "site 1\nmode tree\ntype 100 1\nsubstation S 0 0 4 10000\nturbine A 1000 0 100\nturbine B 2000 0 100\nend site\n",
        5,
        "layout 0\ninfeasible\n",
    ),
    // The straight ways south are closed, and the others cross: the cheapest goes round.
    (
        "site 1\nmode tree\ntype 400 1\nsubstation S1 0 0 4 10000\nsubstation S2 1000 0 4 10000\nturbine A 0 1000 100\nturbine B 1000 1000 100\nclosed A S1\nclosed B S2\nend site\n",
        0,
        "optimal 2415\n",
    ),
    (
        "site 1\nmode tree\ntype 100 1\nsubstation S1 0 0 4 10000\nsubstation S2 1000 0 4 10000\nturbine A 0 1000 100\nturbine B 1000 1000 100\nclosed A S1\nclosed B S2\nend site\n",
        5,
        "layout 0\ninfeasible\n",
    ),
    // The way goes by the bend, round the obstacle.
    (
        "site 1\nmode tree\ntype 400 1\nsubstation S 0 0 4 10000\nturbine A 0 1000 100\nbend K 200 500\nobstacle 4\ncorner -100 400\ncorner 100 400\ncorner 100 600\ncorner -100 600\nend site\n",
        0,
        "layout 2\ncable A K 0\ncable K S 0\noptimal 1078\n",
    ),
    // This way would touch the corner at (100, 600).
    (
        "site 1\nmode tree\ntype 400 1\nsubstation S 0 0 4 10000\nturbine A 0 1000 100\nbend K 125 500\nobstacle 4\ncorner -100 400\ncorner 100 400\ncorner 100 600\ncorner -100 600\nend site\n",
        5,
        "layout 0\ninfeasible\n",
    ),
    // This one would run along the edge from (100, 400) to (100, 600).
    (
        "site 1\nmode tree\ntype 400 1\nsubstation S 100 0 4 10000\nturbine A 100 1000 100\nobstacle 4\ncorner -100 400\ncorner 100 400\ncorner 100 600\ncorner -100 600\nend site\n",
        5,
        "layout 0\ninfeasible\n",
    ),
    // What comes through the bend counts for the cable out of A.
    (
        "site 1\nmode tree\ntype 150 1\nsubstation S 0 0 4 10000\nturbine A 0 1000 100\nturbine B 2 3000 100\nbend K 3 2000\nclosed B S\nclosed B A\nclosed K S\nend site\n",
        5,
        "layout 0\ninfeasible\n",
    ),
    // The same with a type that bears both.
    (
        "site 1\nmode tree\ntype 200 1\nsubstation S 0 0 4 10000\nturbine A 0 1000 100\nturbine B 2 3000 100\nbend K 3 2000\nclosed B S\nclosed B A\nclosed K S\nend site\n",
        0,
        "layout 3\ncable A S 0\ncable B K 0\ncable K A 0\noptimal 3002\n",
    ),
    (
        FORK,
        0,
        "layout 3\ncable A S 0\ncable B A 0\ncable C A 0\noptimal 2000\n",
    ),
    (
        "site 1\nmode strings\ntype 400 1\nsubstation S 0 0 4 10000\nturbine A 0 1000 100\nturbine B -300 1400 100\nturbine C 300 1400 100\nend site\n",
        0,
        "optimal 2100\n",
    ),
    (ONE_FEEDER, 5, "layout 0\ninfeasible\n"),
    // The same with four feeders: three turbines need two cables into the substation.
    (
        "site 1\nmode tree\ntype 200 1\nsubstation S 0 0 4 10000\nturbine A 0 1000 100\nturbine B 1000 0 100\nturbine C 1000 1000 100\nend site\n",
        0,
        "optimal 3000\n",
    ),
    (SQUARE, 5, "layout 0\ninfeasible\n"),
    (
        "site 1\nmode tree\ntype 400 1\nsubstation S 1000000 1000000 4 10000\nturbine A -1000000 -1000000 100\nend site\n",
        0,
        "layout 1\ncable A S 0\noptimal 2828428\n",
    ),
    // Only A to T and B to S could bear the loads, and these cross.
    (
        "site 1\nmode tree\ntype 200 1\nsubstation S 0 0 1 100\nsubstation T 1000 0 1 200\nturbine A 0 1000 200\nturbine B 1000 1000 100\nend site\n",
        5,
        "layout 0\ninfeasible\n",
    ),
    // The load of both turbines goes through A.
    (
        "site 1\nmode tree\ntype 300 2\nsubstation S 0 0 1 300\nturbine A 1000 0 100\nturbine B 2000 1 200\nend site\n",
        0,
        "layout 2\ncable A S 0\ncable B A 0\noptimal 4002\n",
    ),
    // Both may end at the bend, and only one could go on from it.
    (
        "site 1\nmode tree\ntype 400 1\nsubstation S 0 0 4 10000\nturbine A -10 1000 100\nturbine B 10 1000 100\nbend K 0 500\nclosed A S\nclosed B S\nclosed A B\nend site\n",
        5,
        "layout 0\ninfeasible\n",
    ),
    (
        "site 1\nmode tree\ntype 400 100\nsubstation S 0 0 4 10000\nturbine A 300 400 100\ncharge A S 7\nend site\n",
        0,
        "layout 1\ncable A S 0\noptimal 50007\n",
    ),
    (
        "site 1\nmode tree\ntype 400 100\nsubstation S 0 0 4 10000\nturbine A 300 400 100\nclosed S A\nend site\n",
        5,
        "layout 0\ninfeasible\n",
    ),
    // A bend that no cable uses is no hindrance.
    (
        "site 1\nmode tree\ntype 400 1\nsubstation S 0 0 4 10000\nturbine A 0 1000 100\nbend K 0 500\nend site\n",
        0,
        "layout 1\ncable A S 0\noptimal 1000\n",
    ),
    // Five turbines in a row, and two feeders: each feeder takes the turbines on its side.
    (
        "site 1\nmode tree\ntype 300 1\nsubstation S 0 0 2 10000\nturbine A 500 1 100\nturbine B 1000 2 100\nturbine C 1500 3 100\nturbine D -500 1 100\nturbine E -1000 2 100\nend site\n",
        0,
        "layout 5\ncable A S 0\ncable B A 0\ncable C B 0\ncable D S 0\ncable E D 0\noptimal 2505\n",
    ),
    (
        "site 1\nmode tree\ntype 400 1\nturbine A 0 0 1\nturbine B 1 0 1\nturbine C 2 0 1\nturbine D 3 0 1\nturbine E 4 0 1\nend site\n",
        5,
        "layout 0\ninfeasible\n",
    ),
];

/// Three turbines at the corners of a square, and the substation at the fourth, which takes the power of two of them.
const SQUARE: &str =
    "site 1\nmode tree\ntype 400 1\nsubstation S 0 0 4 250\nturbine A 0 1000 100\nturbine B 1000 0 100\nturbine C 1000 1000 100\nend site\n";

/// Twelve turbines in three rows, some of which an obstacle cuts off from the substation.
const FARM: &str =
    "site 1\nmode tree\ntype 300 180\ntype 600 310\nsubstation Hub 1200 -900 8 10000\nturbine T1A 0 0 80\nturbine T1B 800 60 80\nturbine T1C 1600 0 80\nturbine T1D 2400 60 80\nturbine T2A 150 850 80\nturbine T2B 950 910 80\nturbine T2C 1750 850 80\nturbine T2D 2550 910 80\nturbine T3A 0 1700 80\nturbine T3B 800 1760 80\nturbine T3C 1600 1700 80\nturbine T3D 2400 1760 80\nbend K 2000 -200\nobstacle 4\ncorner 900 300\ncorner 1150 300\ncorner 1150 620\ncorner 900 620\ncharge T1A Hub 20000\nclosed T1D T2D\nend site\n";

/// A site, a budget of works, the status, and how the plan ends after one work, or more.
const SHORT_PLANS: [(&str, &str, u8, &str); 8] = [
    (FARM, "1", 3, "gap 2139030 2003336\n"),
    // The cheapest in-tree costs as much, so one work is enough.
    (
        FORK,
        "1",
        0,
        "layout 3\ncable A S 0\ncable B A 0\ncable C A 0\noptimal 2000\n",
    ),
    // The cheapest first cables of the two cost 200.
    (
        "site 1\nmode tree\ntype 400 1\nsubstation S 0 0 4 10000\nturbine A 0 1000 100\nturbine B 100 1000 100\nend site\n",
        "1",
        0,
        "layout 2\ncable A S 0\ncable B A 0\noptimal 1100\n",
    ),
    // No arc leaves the two together.
    (
        "site 1\nmode tree\ntype 400 1\nsubstation S 0 0 4 10000\nturbine A 0 1000 100\nturbine B 100 1000 100\nclosed A S\nclosed B S\nend site\n",
        "1",
        5,
        "row cut 1 2\nwork 1 0\ndead row 8\nlayout 0\ninfeasible\n",
    ),
    (FIRST, "1", 0, "layout 1\ncable A S 0\noptimal 50000\n"),
    (
        SQUARE,
        "1",
        4,
        "layout 2\ncable A S 0\ncable C A 0\nopen 3000 stuck B\n",
    ),
    (SQUARE, "1023", 5, "layout 0\ninfeasible\n"),
    // No arc leads out of B.
    (
        "site 1\nmode tree\ntype 400 1\nsubstation S 0 0 4 10000\nturbine A 0 1000 100\nturbine B 0 2000 100\nclosed A B\nend site\n",
        "1",
        5,
        "layout 0\ninfeasible\n",
    ),
];

/// Whether the bytes end with the text and the last line of a document.
fn ends_with(bytes: &[u8], text: &str) -> bool {
    match bytes.strip_suffix(b"end document\n".as_slice()) {
        Some(front) => front.ends_with(text.as_bytes()),
        None => false,
    }
}

/// Runs `plan 1023` on a site.
fn planned(alloc: Global, input: &str) -> Result<Ran, AllocError> {
    run_on::<Cables>(alloc, &["plan", "1023"], input)
}

#[test]
fn a_plan_is_a_document(rt: HostRuntime) -> Result<(), AllocError> {
    let plan = planned(rt.alloc(), FIRST)?;
    assert_eq!(rt; plan.status, 0);
    assert!(rt; plan.out.as_slice() == FIRST_PLAN.as_bytes());
    assert!(rt; plan.note.is_empty());
    Ok(())
}

#[test]
fn prints_the_cheapest_plan(rt: HostRuntime) -> Result<(), AllocError> {
    let alloc = rt.alloc();
    for (site, status, end) in PLANS {
        let plan = planned(alloc, site)?;
        assert_eq!(rt; plan.status, status, "{site}");
        assert!(rt; plan.out.starts_with(site.as_bytes()), "{site}");
        assert!(rt; ends_with(plan.out.as_slice(), end), "{site}");
        assert!(rt; plan.note.is_empty());
    }
    Ok(())
}

#[test]
fn each_plan_passes_its_check(rt: HostRuntime) -> Result<(), AllocError> {
    let alloc = rt.alloc();
    for (site, _status, _end) in PLANS {
        let plan = planned(alloc, site)?;
        let check = ran_with::<Cables>(alloc, &["check"], plan.out.as_slice(), &[], &[], &[])?;
        assert_eq!(rt; check.status, 0, "{site}");
        assert!(rt; check.out.starts_with(b"yes "), "{site}");
    }
    Ok(())
}

#[test]
fn a_small_budget_leaves_a_gap_or_a_part(rt: HostRuntime) -> Result<(), AllocError> {
    let alloc = rt.alloc();
    for (site, budget, status, end) in SHORT_PLANS {
        let plan = run_on::<Cables>(alloc, &["plan", budget], site)?;
        assert_eq!(rt; plan.status, status, "{site}");
        assert!(rt; ends_with(plan.out.as_slice(), end), "{site}");
        let check = ran_with::<Cables>(alloc, &["check"], plan.out.as_slice(), &[], &[], &[])?;
        assert_eq!(rt; check.status, 0, "{site}");
    }
    Ok(())
}

/// What isn't planned, and the note.
const REFUSED: [(&str, &str); 6] = [
    ("", "site refused: Form at 0\n"),
    (
        "site 2\nmode tree\ntype 400 1 0\nend site\n",
        "site refused: Range at 1\n",
    ),
    (
        "site 1\nmode tree\ntype 400 1\nend site\nend site\n",
        "site refused: Form at 5\n",
    ),
    (
        "site 1\nmode tree\ntype 400 100\nsubstation S 0 0 4 10000\nturbine A 300 400 100\ncharge A S 7\nclosed S A\nend site\n",
        "site refused: SamePair at 7\n",
    ),
    (
        "site 1\nmode tree\ntype 400 100\nsubstation S 0 0 4 10000\nturbine A 300 400 100\nclosed A X\nend site\n",
        "site refused: UnknownName at 6\n",
    ),
    (
        "site 1\nmode tree\ntype 400 1\nsubstation S 1000000 1000000 4 10000\nturbine A 1000001 -1000000 100\nend site\n",
        "site refused: Range at 5\n",
    ),
];

#[test]
fn what_is_no_site_is_not_planned(rt: HostRuntime) -> Result<(), AllocError> {
    let alloc = rt.alloc();
    for (input, note) in REFUSED {
        let plan = planned(alloc, input)?;
        assert_eq!(rt; plan.status, 2, "{input}");
        assert!(rt; plan.out.is_empty());
        assert!(rt; plan.note.as_slice() == note.as_bytes(), "{input}");
    }
    Ok(())
}
