//! Documents that are fed to a checker, and what it answers to their claims.

ghost use Rattle.std.specs.Prelude.{◌≤◌};

use branch_tree::{Act, Why};
use cable_definitions::claim::Refusal;
use cable_definitions::row::RowKind;
use layout_meaning::{Cable, Layout};
use node_works::{Weights, Work};
use proof_checker::{Bound, Cause, Checker, Claim};
use sample_sites::{FIRST, ONE_FEEDER, site_of};
use site_model::Site;
use std::alloc::Global;
use std::test::Fail;

/// The cable from the turbine to the substation, which costs 50,000.
const CABLE: Cable = Cable {
    from: 1,
    to: 0,
    grade: 0,
};

/// The split on the one arc, a full node where it is used, and a dead one where it isn't.
const WORKS: [(u32, Act); 3] = [
    (1, Act::Split(0)),
    (2, Act::Full),
    (3, Act::Dead(Why::Row(0))),
];

/// The first site with a substation that takes less power than its turbine gives.
const WEAK: &str =
    "site 1\nmode tree\ntype 400 100\nsubstation S 0 0 4 50\nturbine A 300 400 100\nend site\n";

/// What is answered to the claim of a document: a row `Out` of a point in line 1, a work in each line that follows, a layout, and the claim
/// in the next line.
fn check(
    alloc: Global,
    site: &Site,
    budget: u32,
    row: u32,
    works: &[(u32, Act)],
    cables: &[Cable],
    claim: Claim,
) -> Result<Result<Bound, Refusal>, Fail>
    requires some_work { 1 ≤ budget }
    requires most_works { budget ≤ 50000 }
{
    let mut layout = Layout::new(alloc)?;
    for cable in cables {
        layout.push(*cable)?;
    }
    let mut checker = Checker::begin(alloc, site, budget)?;
    let _ = checker.feed_row(1, RowKind::Out, &[row]);
    let mut line = 2u64;
    for step in works {
        let work = Work {
            node: step.0,
            weights: Weights::new(alloc)?,
            act: step.1,
        };
        let _ = checker.feed_work(line, &work);
        line = line.saturating_add(1);
    }
    Ok(checker.close(line, &layout, claim))
}

/// A refusal of a line.
fn refused(line: u64, cause: Cause) -> Result<Bound, Refusal> {
    Err(Refusal { line, cause })
}

/// What an accepted document of one turbine says.
const LEAST: Result<Bound, Refusal> = Ok(Bound::Least(50000));

/// A work that stops at once.
const STOP: [(u32, Act); 1] = [(1, Act::Stop)];

/// The budget, the point of the row, the works, the cables and the claim of a document.
type Parts = (u32, u32, &'static [(u32, Act)], &'static [Cable], Claim);

/// Documents of one turbine, and what is answered.
const DOCUMENTS: [(Parts, Result<Bound, Refusal>); 17] = [
    ((3, 1, &WORKS, &[CABLE], Claim::Optimal(50000)), LEAST),
    (
        (3, 1, &WORKS, &[CABLE], Claim::Optimal(50001)),
        Err(Refusal {
            line: 5,
            cause: Cause::Layout,
        }),
    ),
    (
        (3, 1, &WORKS, &[CABLE], Claim::Infeasible),
        Err(Refusal {
            line: 5,
            cause: Cause::Layout,
        }),
    ),
    (
        (3, 1, &WORKS, &[], Claim::Infeasible),
        Err(Refusal {
            line: 5,
            cause: Cause::Verdict,
        }),
    ),
    (
        (
            3,
            1,
            &[(1, Act::Split(0)), (2, Act::Full)],
            &[CABLE],
            Claim::Optimal(50000),
        ),
        Err(Refusal {
            line: 4,
            cause: Cause::Verdict,
        }),
    ),
    (
        (
            1,
            1,
            &STOP,
            &[CABLE],
            Claim::Gap {
                cost: 50000,
                bound: 0,
            },
        ),
        Ok(Bound::Least(0)),
    ),
    (
        (
            2,
            1,
            &STOP,
            &[CABLE],
            Claim::Gap {
                cost: 50000,
                bound: 0,
            },
        ),
        Err(Refusal {
            line: 3,
            cause: Cause::Verdict,
        }),
    ),
    (
        (
            1,
            1,
            &STOP,
            &[CABLE],
            Claim::Gap {
                cost: 50000,
                bound: 1,
            },
        ),
        Err(Refusal {
            line: 3,
            cause: Cause::Verdict,
        }),
    ),
    (
        (
            3,
            1,
            &WORKS,
            &[CABLE],
            Claim::Gap {
                cost: 50000,
                bound: 50000,
            },
        ),
        Err(Refusal {
            line: 5,
            cause: Cause::Verdict,
        }),
    ),
    (
        (3, 0, &WORKS, &[CABLE], Claim::Optimal(50000)),
        Err(Refusal {
            line: 1,
            cause: Cause::Row,
        }),
    ),
    (
        (2, 1, &WORKS, &[CABLE], Claim::Optimal(50000)),
        Err(Refusal {
            line: 4,
            cause: Cause::Limit,
        }),
    ),
    (
        (
            3,
            1,
            &[(1, Act::Split(0)), (4, Act::Full)],
            &[CABLE],
            Claim::Optimal(50000),
        ),
        Err(Refusal {
            line: 3,
            cause: Cause::Node,
        }),
    ),
    (
        (
            3,
            1,
            &[(1, Act::Split(0)), (2, Act::Full), (2, Act::Full)],
            &[CABLE],
            Claim::Optimal(50000),
        ),
        Err(Refusal {
            line: 4,
            cause: Cause::Node,
        }),
    ),
    (
        (3, 1, &[(1, Act::Split(1))], &[CABLE], Claim::Optimal(50000)),
        Err(Refusal {
            line: 2,
            cause: Cause::Arc,
        }),
    ),
    (
        (
            3,
            1,
            &[(1, Act::Split(0)), (2, Act::Split(0))],
            &[CABLE],
            Claim::Optimal(50000),
        ),
        Err(Refusal {
            line: 3,
            cause: Cause::Arc,
        }),
    ),
    (
        (
            3,
            1,
            &[(1, Act::Split(0)), (2, Act::Dead(Why::Row(0)))],
            &[CABLE],
            Claim::Optimal(50000),
        ),
        Err(Refusal {
            line: 3,
            cause: Cause::Dead,
        }),
    ),
    (
        (
            3,
            1,
            &[(1, Act::Split(0)), (3, Act::Full)],
            &[CABLE],
            Claim::Optimal(50000),
        ),
        Err(Refusal {
            line: 3,
            cause: Cause::Full,
        }),
    ),
];

#[test]
fn documents_of_one_turbine(rt: HostRuntime) -> Result<(), Fail> {
    let alloc = rt.alloc();
    let site = site_of(alloc, FIRST)?;
    for ((budget, row, works, cables, claim), want) in DOCUMENTS {
        assert!(&rt; 1 <= budget && budget <= 50000);
        let answer = check(alloc, &site, budget, row, works, cables, claim)?;
        assert_eq!(rt; answer, want);
    }
    Ok(())
}

#[test]
fn a_turbine_that_cannot_be_joined(rt: HostRuntime) -> Result<(), Fail> {
    let alloc = rt.alloc();
    let site = site_of(alloc, ONE_FEEDER)?;
    let stop = [(1, Act::Stop)];
    let cable = |from, to| Cable { from, to, grade: 0 };
    let part = [cable(1, 0), cable(2, 1)];
    for (budget, cables, bound, stuck, answer) in [
        (1, &part[..], 0, 3, Ok(Bound::Least(0))),
        (1, &part[..], 0, 2, refused(3, Cause::Layout)),
        (1, &part[..], 0, 0, refused(3, Cause::Layout)),
        (1, &part[..], 0, 4, refused(3, Cause::Layout)),
        (1, &part[..1], 0, 3, refused(3, Cause::Layout)),
        (1, &part[1..], 0, 3, refused(3, Cause::Layout)),
        (1, &part[..], 1, 3, refused(3, Cause::Verdict)),
        (2, &part[..], 0, 3, refused(3, Cause::Verdict)),
    ] {
        let claim = Claim::Partial { bound, stuck };
        assert_eq!(rt;
            check(alloc, &site, budget, 1, &stop, cables, claim)?,
            answer
        );
    }
    Ok(())
}

#[test]
fn a_site_without_a_layout(rt: HostRuntime) -> Result<(), Fail> {
    let alloc = rt.alloc();
    let site = site_of(alloc, WEAK)?;
    let works = [WORKS[0], (2, Act::Dead(Why::Power(0))), WORKS[2]];
    let answer = check(alloc, &site, 3, 1, &works, &[], Claim::Infeasible)?;
    assert_eq!(rt; answer, Ok(Bound::NoLayout));
    Ok(())
}

/// What is answered to the claim that 50,000 is optimal, where the one work is on node 1, with this weight on this row, and stops.
fn weighed(
    alloc: Global,
    site: &Site,
    row: u32,
    weight: i128,
) -> Result<Result<Bound, Refusal>, Fail> {
    let mut weights = Weights::new(alloc)?;
    weights.push(row, weight)?;
    let mut layout = Layout::new(alloc)?;
    layout.push(CABLE)?;
    let mut checker = Checker::begin(alloc, site, 1)?;
    let _ = checker.feed_row(1, RowKind::Out, &[1]);
    let _ = checker.feed_row(2, RowKind::Inlet, &[0]);
    let work = Work {
        node: 1,
        weights,
        act: Act::Stop,
    };
    let _ = checker.feed_work(3, &work);
    Ok(checker.close(4, &layout, Claim::Optimal(50000)))
}

#[test]
fn weights_of_one_turbine(rt: HostRuntime) -> Result<(), Fail> {
    let alloc = rt.alloc();
    let site = site_of(alloc, FIRST)?;
    let unit = 1_048_576;
    assert_eq!(rt;
        weighed(alloc, &site, 0, 50000 * unit)?,
        Ok(Bound::Least(50000))
    );
    assert_eq!(rt;
        weighed(alloc, &site, 0, 49999 * unit)?,
        refused(4, Cause::Verdict)
    );
    for (row, weight) in [(0, 0), (1, -unit), (2, unit), (0, (1 << 76) + 1)] {
        assert_eq!(rt;
            weighed(alloc, &site, row, weight)?,
            refused(3, Cause::Weight)
        );
    }
    Ok(())
}
