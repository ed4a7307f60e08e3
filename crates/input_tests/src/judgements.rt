//! Layouts that `judge` answers on.

use crate::cables::Cables;
use run_support::{FORK, answers};
use std::alloc::{AllocError, Global};

/// The square of two substations and two turbines whose straight ways are closed.
const SQUARE: &str =
    "site 1\nmode tree\ntype 400 1\nsubstation S1 0 0 4 10000\nsubstation S2 1000 0 4 10000\nturbine A 0 1000 100\nturbine B 1000 1000 100\nclosed A S1\nclosed B S2\nend site\n";

/// The fork in strings mode.
const STRINGS: &str =
    "site 1\nmode strings\ntype 400 1\nsubstation S 0 0 4 10000\nturbine A 0 1000 100\nturbine B -300 1400 100\nturbine C 300 1400 100\nend site\n";

/// The fork with a type that bears two turbines, and one feeder.
const NARROW: &str =
    "site 1\nmode tree\ntype 200 1\nsubstation S 0 0 1 10000\nturbine A 0 1000 100\nturbine B -300 1400 100\nturbine C 300 1400 100\nend site\n";

/// A turbine, a bend and a substation in a row, whose way over the bend carries both turbines.
const BENT: &str =
    "site 1\nmode tree\ntype 150 1\nsubstation S 0 0 4 150\nturbine A 0 1000 100\nturbine B 0 3000 100\nbend K 0 2000\nend site\n";

/// A bend on the straight way of A, which another cable may use.
const CROSSED: &str =
    "site 1\nmode tree\ntype 400 1\nsubstation S 0 0 4 10000\nsubstation T -500 500 4 10000\nturbine A 0 1000 100\nturbine B 500 500 100\nbend K 0 500\nend site\n";

/// The straight way of A runs along an edge of the obstacle, and that of B through one of its corners.
const EDGED: &str =
    "site 1\nmode tree\ntype 400 1\nsubstation S 100 0 4 10000\nsubstation T 200 500 4 10000\nturbine A 100 1000 100\nturbine B 0 300 100\nobstacle 4\ncorner -100 400\ncorner 100 400\ncorner 100 600\ncorner -100 600\nend site\n";

/// A site, the lines behind it, the status, and what is answered or noted.
const JUDGEMENTS: [(&str, &str, u8, &str); 30] = [
    (
        FORK,
        "layout 3\ncable A S 0\ncable B A 0\ncable C A 0\n",
        0,
        "legal 2000\n",
    ),
    // Cables come in any order.
    (
        FORK,
        "layout 3\ncable C A 0\ncable A S 0\ncable B A 0\n",
        0,
        "legal 2000\n",
    ),
    (
        STRINGS,
        "layout 3\ncable A S 0\ncable B A 0\ncable C A 0\n",
        0,
        "broken Branch A A\n",
    ),
    (
        STRINGS,
        "layout 3\ncable A S 0\ncable B A 0\ncable C B 0\n",
        0,
        "legal 2100\n",
    ),
    (
        SQUARE,
        "layout 2\ncable A S2 0\ncable B S1 0\n",
        0,
        "broken Clash A B\n",
    ),
    (SQUARE, "layout 0\n", 0, "broken Unjoined A A\n"),
    (
        SQUARE,
        "layout 2\ncable A S1 0\ncable B A 0\n",
        0,
        "broken Candidate A S1\n",
    ),
    (
        FORK,
        "layout 4\ncable A S 0\ncable B A 0\ncable C A 0\ncable A B 0\n",
        0,
        "broken Start A A\n",
    ),
    (
        FORK,
        "layout 3\ncable A B 0\ncable B A 0\ncable C S 0\n",
        0,
        "broken Lost A A\n",
    ),
    (
        NARROW,
        "layout 3\ncable A S 0\ncable B A 0\ncable C A 0\n",
        0,
        "broken Overload A S\n",
    ),
    (
        NARROW,
        "layout 3\ncable A S 0\ncable B A 0\ncable C S 0\n",
        0,
        "broken Feeders S S\n",
    ),
    (
        BENT,
        "layout 3\ncable A S 0\ncable B K 0\ncable K A 0\n",
        0,
        "broken Overload A S\n",
    ),
    (
        BENT,
        "layout 2\ncable A S 0\ncable B K 0\n",
        0,
        "broken Bend K K\n",
    ),
    (
        BENT,
        "layout 2\ncable A S 0\ncable B S 0\n",
        0,
        "broken Candidate B S\n",
    ),
    (
        "site 1\nmode tree\ntype 400 1\nsubstation S 0 0 4 250\nturbine A 0 1000 100\nturbine B -300 1400 100\nturbine C 300 1400 100\nend site\n",
        "layout 3\ncable A S 0\ncable B A 0\ncable C A 0\n",
        0,
        "broken Power S S\n",
    ),
    // The cables touch at the bend, which ends one of them alone.
    (
        CROSSED,
        "layout 3\ncable A S 0\ncable B K 0\ncable K T 0\n",
        0,
        "broken Clash A B\n",
    ),
    (
        EDGED,
        "layout 2\ncable A S 0\ncable B S 0\n",
        0,
        "broken Candidate A S\n",
    ),
    (
        EDGED,
        "layout 2\ncable A T 0\ncable B T 0\n",
        0,
        "broken Candidate B T\n",
    ),
    // Two rules are broken, and the first is named.
    (
        FORK,
        "layout 2\ncable A B 0\ncable B A 0\n",
        0,
        "broken Unjoined C C\n",
    ),
    (
        FORK,
        "layout 3\ncable A S 1\ncable B A 0\ncable C A 0\n",
        6,
        "document refused: Layout at line 10\n",
    ),
    (
        FORK,
        "layout 3\ncable A X 0\ncable B A 0\ncable C A 0\n",
        6,
        "document refused: Layout at line 10\n",
    ),
    (
        FORK,
        "layout 3\ncable A S 0\ncable B A 0\n",
        6,
        "document refused: Line at line 12\n",
    ),
    (
        FORK,
        "layout 2\ncable A S 0\ncable B A 0\ncable C A 0\n",
        6,
        "document refused: Form at line 12\n",
    ),
    (
        FORK,
        "layout 257\n",
        6,
        "document refused: Limit at line 9\n",
    ),
    (FORK, "layout 01\n", 6, "document refused: Form at line 9\n"),
    (FORK, "row out 1\n", 6, "document refused: Form at line 9\n"),
    (FORK, "", 6, "document refused: Line at line 9\n"),
    (FORK, "layout 0", 6, "document refused: Line at line 9\n"),
    ("site 1\nmode tree\n", "", 2, "site refused: Form at 3\n"),
    ("{}", "", 2, "site refused: Form at 1\n"),
];

#[test]
fn layouts_are_judged(rt: HostRuntime) -> Result<(), AllocError> {
    for (site, lines, status, text) in JUDGEMENTS {
        assert!(rt;
            is_judged(rt.alloc(), site, lines, status, text)?,
            "{lines}"
        );
    }
    Ok(())
}

/// Whether `judge` answers so to a site and the lines behind it.
fn is_judged(
    alloc: Global,
    site: &str,
    lines: &str,
    status: u8,
    text: &str,
) -> Result<bool, AllocError> {
    let mut input = String::from_str(alloc, site)?;
    input.push_str(lines)?;
    answers::<Cables>(alloc, &["judge"], input.as_str(), status, text)
}
