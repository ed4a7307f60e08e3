//! Documents with bounds by weights.

use crate::cables::Cables;
use run_support::{wrong_answer, wrong_refusal};
use std::alloc::AllocError;

/// Three turbines, of which the first is nearest to the substation. Each turbine's row weighs 500 cost units.
const WEIGHED: &str =
    "site 1\nmode tree\ntype 400 1\nsubstation S 0 0 4 10000\nturbine A 0 1000 100\nturbine B -300 1400 100\nturbine C 300 1400 100\nend site\nbudget 1\nrow out 1\nrow out 2\nrow out 3\nwork 1 3\nby 0 524288000\nby 1 524288000\nby 2 524288000\nstop\nlayout 3\ncable A S 0\ncable B A 0\ncable C A 0\ngap 2000 1500\nend document\n";

/// The first site with its cost as its bound, by the weight of one row.
pub(crate) const BOUNDED: &str =
    "site 1\nmode tree\ntype 400 100\nsubstation S 0 0 4 10000\nturbine A 300 400 100\nend site\nbudget 10\nrow out 1\nwork 1 1\nby 0 52428800000\nstop\nlayout 1\ncable A S 0\noptimal 50000\nend document\n";

/// The same by a weight on what flows out of the turbine, where no cable bears more than that.
const FLOWING: &str =
    "site 1\nmode tree\ntype 100 100\nsubstation S 0 0 4 10000\nturbine A 300 400 100\nend site\nbudget 10\nrow flow 1\nwork 1 1\nby 0 524288000\nstop\nlayout 1\ncable A S 0\noptimal 50000\nend document\n";

/// The same by weights on the turbine's row and on the substation's power, which is used up.
const POWERED: &str =
    "site 1\nmode tree\ntype 400 100\nsubstation S 0 0 4 100\nturbine A 300 400 100\nend site\nbudget 10\nrow out 1\nrow power 0\nwork 1 2\nby 0 52533657600\nby 1 1048576\nstop\nlayout 1\ncable A S 0\noptimal 50000\nend document\n";

/// Documents, their status, and what is answered.
const BOUNDS: [(&str, u8, &str); 4] = [
    (WEIGHED, 0, "yes cost 2000 bound 1500\n"),
    (BOUNDED, 0, "yes cost 50000 bound 50000\n"),
    (FLOWING, 0, "yes cost 50000 bound 50000\n"),
    (POWERED, 0, "yes cost 50000 bound 50000\n"),
];

#[test]
fn bounds_by_weights(rt: HostRuntime) -> Result<(), AllocError> {
    let wrong = wrong_answer::<Cables>(rt.alloc(), &["check"], &BOUNDS)?;
    assert_eq!(rt; wrong, None);
    Ok(())
}

/// What stands in the document of three turbines, what is put in its place, and how the cause and the line are noted.
const CHANGES: [(&str, &str, &str); 17] = [
    ("budget 1", "budget 10", "Verdict at line 22"),
    ("gap 2000 1500", "gap 2000 1501", "Verdict at line 22"),
    ("gap 2000 1500", "gap 2000 1499", "Verdict at line 22"),
    // A weight more or less than is said.
    ("work 1 3", "work 1 2", "Form at line 16"),
    ("work 1 3", "work 1 4", "Form at line 17"),
    ("by 2 524288000\n", "", "Form at line 16"),
    // A row twice, one that isn't listed, and no weight at all.
    ("by 2 524288000", "by 1 524288000", "Weight at line 17"),
    ("by 2 524288000", "by 3 524288000", "Weight at line 17"),
    ("by 2 524288000", "by 2 0", "Weight at line 17"),
    ("by 2 524288000", "by 16384 524288000", "Limit at line 16"),
    (
        "by 2 524288000",
        "by 2 75557863725914323419137",
        "Limit at line 16",
    ),
    // The greatest weight takes all from the bound.
    (
        "by 2 524288000",
        "by 2 75557863725914323419136",
        "Verdict at line 22",
    ),
    ("by 2 524288000", "by 2 524288000 1", "Form at line 16"),
    ("by 2 524288000", "by 2 0524288000", "Form at line 16"),
    // An equation may have a negative weight, which lowers the bound to 500; another row may not.
    ("by 2 524288000", "by 2 -524288000", "Verdict at line 22"),
    (
        "row out 3\nwork 1 3\nby 0 524288000\nby 1 524288000\nby 2 524288000",
        "row inlet 0\nwork 1 3\nby 0 524288000\nby 1 524288000\nby 2 -524288000",
        "Weight at line 17",
    ),
    ("stop", "dead row 0", "Dead at line 17"),
];

#[test]
fn changed_weights_are_refused(rt: HostRuntime) -> Result<(), AllocError> {
    let wrong = wrong_refusal::<Cables>(rt.alloc(), WEIGHED, &CHANGES)?;
    assert_eq!(rt; wrong, None);
    Ok(())
}
