//! Documents in which something is changed, and how they are refused.

use crate::cables::Cables;
use run_support::{DOCUMENT, FORK, OPEN, run_on, wrong_answer, wrong_refusal};
use std::alloc::AllocError;

/// What stands in the document, what is put in its place, and how the cause and the line are noted.
const CHANGES: [(&str, &str, &str); 36] = [
    ("split 0", "split 1", "Arc at line 10"),
    ("dead row 0", "dead row 1", "Dead at line 14"),
    ("dead row 0", "full", "Full at line 14"),
    ("full", "dead row 0", "Dead at line 12"),
    ("work 3 0", "work 2 0", "Node at line 14"),
    ("work 3 0", "work 4 0", "Node at line 14"),
    ("budget 8191", "budget 2", "Limit at line 14"),
    ("row out 1", "row out 0", "Row at line 8"),
    ("optimal 50000", "optimal 50001", "Layout at line 17"),
    ("work 3 0\ndead row 0\n", "", "Verdict at line 15"),
    // The site's lines.
    ("turbine A 300", "turbine A x", "Site at line 5"),
    ("end site\n", "", "Site at line 6"),
    ("site 1", "site 2", "Site at line 1"),
    // The lines behind the site.
    ("budget 8191", "budget 0", "Limit at line 7"),
    ("budget 8191", "budget 50001", "Limit at line 7"),
    ("budget 8191\n", "", "Form at line 7"),
    ("row out 1", "row out 256", "Limit at line 8"),
    ("row out 1", "row out 1 1", "Form at line 8"),
    ("row out 1", "row out 01", "Form at line 8"),
    ("row out 1", "row cut 0", "Row at line 8"),
    ("row out 1", "row one 0", "Dead at line 14"),
    ("row out 1", "row power 1", "Row at line 8"),
    ("work 1 0", "work 1 1", "Form at line 10"),
    ("work 1 0", "work 1 1025", "Limit at line 9"),
    ("work 1 0", "work 0 0", "Limit at line 9"),
    ("work 1 0", "work 1", "Form at line 9"),
    ("dead row 0", "dead load 1", "Dead at line 14"),
    ("dead row 0", "dead row 16384", "Limit at line 14"),
    ("layout 1", "layout 257", "Limit at line 15"),
    ("layout 1", "layout 2", "Form at line 17"),
    ("cable A S 0", "cable A T 0", "Layout at line 16"),
    (
        "cable A S 0",
        "cable A S 99999999999999999999999999",
        "Layout at line 16",
    ),
    (
        "optimal 50000",
        "optimal 9223372036854775808",
        "Limit at line 17",
    ),
    ("optimal 50000", "gap 50000 50000", "Verdict at line 17"),
    ("optimal 50000", "infeasible", "Layout at line 17"),
    ("end document\n", "", "Line at line 18"),
];

#[test]
fn a_changed_document_is_refused(rt: HostRuntime) -> Result<(), AllocError> {
    let wrong = wrong_refusal::<Cables>(rt.alloc(), DOCUMENT, &CHANGES)?;
    assert_eq!(rt; wrong, None);
    Ok(())
}

/// The last line of the document, what is put in its place, and how the cause and the line are noted.
const BEHIND: [(&str, &str, &str); 3] = [
    ("end document\n", "end document\nx\n", "Form at line 19"),
    ("end document\n", "end document\nx", "Line at line 19"),
    ("end document\n", "end document\n\n", "Form at line 19"),
];

#[test]
fn nothing_follows_a_document(rt: HostRuntime) -> Result<(), AllocError> {
    let wrong = wrong_refusal::<Cables>(rt.alloc(), DOCUMENT, &BEHIND)?;
    assert_eq!(rt; wrong, None);
    Ok(())
}

/// Documents, their status, and what is answered or noted.
const DOCUMENTS: [(&str, u8, &str); 7] = [
    (DOCUMENT, 0, "yes cost 50000 bound 50000\n"),
    (OPEN, 0, "yes bound 0\n"),
    ("", 6, "document refused: Line at line 1\n"),
    ("{\"site\":1}\n", 6, "document refused: Site at line 1\n"),
    (
        "site 1\nmode tree\ntype 400 1\nturbine A 0 0 100\nend site\nbudget 1\nrow out 0\nwork 1 0\ndead row 0\nlayout 0\ninfeasible\nend document\n",
        0,
        "yes infeasible\n",
    ),
    (
        "site 1\nmode tree\ntype 400 100\nsubstation S 0 0 4 10000\nturbine A 300 400 100\nend site\nbudget 1\nwork 1 0\nstop\nlayout 1\ncable A S 0\ngap 50000 0\nend document\n",
        0,
        "yes cost 50000 bound 0\n",
    ),
    // One work isn't two.
    (
        "site 1\nmode tree\ntype 400 100\nsubstation S 0 0 4 10000\nturbine A 300 400 100\nend site\nbudget 2\nwork 1 0\nstop\nlayout 1\ncable A S 0\ngap 50000 0\nend document\n",
        6,
        "document refused: Verdict at line 12\n",
    ),
];

#[test]
fn documents_are_judged_alone(rt: HostRuntime) -> Result<(), AllocError> {
    let wrong = wrong_answer::<Cables>(rt.alloc(), &["check"], &DOCUMENTS)?;
    assert_eq!(rt; wrong, None);
    Ok(())
}

/// What stands in the document of a part, what is put in its place, and how the cause and the line are noted.
const OPENED: [(&str, &str, &str); 12] = [
    ("stuck C", "stuck B", "Layout at line 15"),
    // C can be joined to A.
    (
        "2\ncable A S 0\ncable B A 0",
        "1\ncable A S 0",
        "Layout at line 14",
    ),
    ("stuck C", "stuck S", "Layout at line 15"),
    ("stuck C", "stuck X", "Layout at line 15"),
    ("cable B A 0", "cable B S 0", "Layout at line 15"),
    ("open 0", "open 1", "Verdict at line 15"),
    ("budget 1", "budget 2", "Verdict at line 15"),
    ("open 0", "open 9223372036854775808", "Limit at line 15"),
    // Ranges are judged before names.
    (
        "open 0 stuck C",
        "open 9223372036854775808 stuck X",
        "Limit at line 15",
    ),
    ("open 0 stuck C", "open 0 stuck", "Form at line 15"),
    ("open 0 stuck C", "gap 2415 0", "Layout at line 15"),
    ("open 0 stuck C", "infeasible", "Layout at line 15"),
];

#[test]
fn a_part_is_judged_alone(rt: HostRuntime) -> Result<(), AllocError> {
    assert_eq!(rt; wrong_refusal::<Cables>(rt.alloc(), OPEN, &OPENED)?, None);
    Ok(())
}

/// The marks of two cables that exclude each other, by each reason that speaks of used arcs.
const REASONS: [(&str, u8); 6] = [
    // Both out of A.
    ("split 0\nwork 2 0\nsplit 1\nwork 4 0\ndead pair 0 1\n", 0),
    ("split 0\nwork 2 0\nsplit 1\nwork 4 0\ndead pair 1 0\n", 0),
    ("split 0\nwork 2 0\nsplit 1\nwork 4 0\ndead pair 0 3\n", 6),
    // A to B and B to A: a pair, and a loop.
    ("split 1\nwork 2 0\nsplit 4\nwork 4 0\ndead loop 1\n", 0),
    ("split 1\nwork 2 0\nsplit 4\nwork 4 0\ndead loop 3\n", 6),
    ("split 1\nwork 2 0\nsplit 4\nwork 4 0\ndead load 1\n", 6),
];

#[test]
fn reasons_are_tested(rt: HostRuntime) -> Result<(), AllocError> {
    let alloc = rt.alloc();
    for (works, status) in REASONS {
        let mut document = String::from_str(alloc, FORK)?;
        document.push_str("budget 3\nrow out 1\nwork 1 0\n")?;
        document.push_str(works)?;
        document.push_str(
            "layout 3\ncable A S 0\ncable B A 0\ncable C A 0\ngap 2000 0\nend document\n",
        )?;
        let check = run_on::<Cables>(alloc, &["check"], document.as_str())?;
        assert_eq!(rt; check.status, status, "{works}");
    }
    Ok(())
}
