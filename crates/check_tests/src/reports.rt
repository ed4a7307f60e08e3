//! Reports of plans and of documents that no plan wrote.

use crate::cables::Cables;
use crate::weights::BOUNDED;
use run_support::{DOCUMENT, FIRST, OPEN, ran_with, run_on, wrong_answer};
use std::alloc::AllocError;

/// The report of the plan of the first site.
const FIRST_REPORT: &str =
    "mode tree\ncable A                S                 0      500      100               50000\ntype 0 cables 1 length 500 cost 50000\nsubstation S feeders 1 of 4 power 100 of 10000\noptimal 50000\n";

/// A string by a bend, with two types.
pub(crate) const BENT: &str =
    "site 1\nmode strings\ntype 100 1\ntype 200 3\nsubstation Harbour 0 0 2 500\nturbine Alpha 0 1000 100\nturbine Bravo 0 3000 100\nbend K 300 2000\nclosed Bravo Alpha\nclosed Bravo Harbour\nclosed K Harbour\nend site\n";

/// The report of its plan.
const BENT_REPORT: &str =
    "mode strings\ncable Alpha            Harbour           1     1000      200                3000\ncable Bravo            K                 0     1045      100                1045\ncable K                Alpha             0     1045      100                1045\ntype 0 cables 2 length 2090 cost 2090\ntype 1 cables 1 length 1000 cost 3000\nsubstation Harbour feeders 1 of 2 power 200 of 500\noptimal 5090\n";

/// A farm that can't be joined.
const LONE: &str = "site 1\nmode tree\ntype 400 1\nturbine A 0 0 100\nend site\n";

/// Sites, and the reports of their plans.
const REPORTS: [(&str, &str); 3] = [
    (FIRST, FIRST_REPORT),
    (BENT, BENT_REPORT),
    (
        LONE,
        "mode tree\ntype 0 cables 0 length 0 cost 0\ninfeasible\n",
    ),
];

#[test]
fn plans_are_reported(rt: HostRuntime) -> Result<(), AllocError> {
    let alloc = rt.alloc();
    for (site, text) in REPORTS {
        let plan = run_on::<Cables>(alloc, &["plan", "1023"], site)?;
        let report = ran_with::<Cables>(alloc, &["report"], plan.out.as_slice(), &[], &[], &[])?;
        assert_eq!(rt; report.status, 0, "{site}");
        assert!(rt; report.out.as_slice() == text.as_bytes(), "{site}");
    }
    Ok(())
}

#[test]
fn what_is_refused_is_not_reported(rt: HostRuntime) -> Result<(), AllocError> {
    let alloc = rt.alloc();
    let cut = match DOCUMENT.as_bytes().strip_suffix(b"\n".as_slice()) {
        Some(cut) => cut,
        None => &[],
    };
    let report = ran_with::<Cables>(alloc, &["report"], cut, &[], &[], &[])?;
    assert_eq!(rt; report.status, 6);
    assert!(rt; report.out.is_empty());
    assert!(rt; report.note.as_slice() == b"document refused: Line at line 18\n".as_slice());
    Ok(())
}

/// The report of a part.
const OPEN_REPORT: &str =
    "mode tree\ncable A                S                 0     1000      200                1000\ncable B                A                 0     1415      100                1415\ntype 0 cables 2 length 2415 cost 2415\nsubstation S feeders 1 of 1 power 200 of 10000\nopen 0 stuck C\n";

/// Documents that no plan wrote, their status, and their reports.
const REPORTED: [(&str, u8, &str); 3] = [
    (DOCUMENT, 0, FIRST_REPORT),
    (BOUNDED, 0, FIRST_REPORT),
    (OPEN, 0, OPEN_REPORT),
];

#[test]
fn a_document_is_reported_whoever_wrote_it(rt: HostRuntime) -> Result<(), AllocError> {
    let wrong = wrong_answer::<Cables>(rt.alloc(), &["report"], &REPORTED)?;
    assert_eq!(rt; wrong, None);
    Ok(())
}
