//! Documents with a row of a set.

use crate::cables::Cables;
use crate::cuts::misses_line;
use run_support::{answers, ran_with, wrong_refusal};
use std::alloc::{AllocError, Global};

/// Three turbines, of which the first is nearest to the substation. Each turbine's row weighs 500 cost units, and so does the row of all three together.
const SET: &str =
    "site 1\nmode tree\ntype 400 1\nsubstation S 0 0 4 10000\nturbine A 0 1000 100\nturbine B -300 1400 100\nturbine C 300 1400 100\nend site\nbudget 10\nrow out 1\nrow out 2\nrow out 3\nrow cut 1 2 3\nwork 1 4\nby 0 524288000\nby 1 524288000\nby 2 524288000\nby 3 524288000\nstop\nlayout 3\ncable A S 0\ncable B A 0\ncable C A 0\noptimal 2000\nend document\n";

/// What stands in that document, what is put in its place, and how the cause and the line are noted.
const CHANGES: [(&str, &str, &str); 27] = [
    ("row out 1\n", "row out 0\n", "Row at line 10"),
    ("row cut 1 2 3", "row cut", "Form at line 13"),
    ("row cut 1 2 3", "row cut 0 1 2", "Row at line 13"),
    ("row cut 1 2 3", "row cut 1 1", "Row at line 13"),
    ("row cut 1 2 3", "row cut 256", "Limit at line 13"),
    ("row cut 1 2 3", "row one 0 3", "Row at line 13"),
    ("work 1 4", "work 2 4", "Node at line 19"),
    ("work 1 4", "work 100002 4", "Limit at line 14"),
    (
        "by 3 524288000",
        "by 3 75557863725914323419136",
        "Verdict at line 24",
    ),
    (
        "by 3 524288000",
        "by 3 75557863725914323419137",
        "Limit at line 18",
    ),
    ("by 3 524288000", "by 16384 1", "Limit at line 18"),
    ("by 3 524288000", "by 3 -524288000", "Weight at line 19"),
    ("by 3 524288000", "by 3 0", "Weight at line 19"),
    ("by 3 524288000", "by 4 1", "Weight at line 19"),
    ("by 3 524288000", "by 2 1", "Weight at line 19"),
    ("stop", "split 9", "Arc at line 19"),
    ("stop", "split 65280", "Limit at line 19"),
    ("stop", "dead ceiling", "Dead at line 19"),
    ("stop", "full", "Full at line 19"),
    ("layout 3", "layout 257", "Limit at line 20"),
    ("layout 3", "layout 2", "Form at line 23"),
    ("cable B A 0", "cable B A 1", "Layout at line 22"),
    ("cable B A 0", "cable A B 0", "Layout at line 22"),
    ("optimal 2000", "optimal 02000", "Form at line 24"),
    ("optimal 2000", "optimal 2001", "Layout at line 24"),
    (
        "optimal 2000",
        "optimal 9223372036854775808",
        "Limit at line 24",
    ),
    ("end document\n", "end document\nx\n", "Form at line 26"),
];

#[test]
fn a_set_is_left_by_enough_cables(rt: HostRuntime) -> Result<(), AllocError> {
    let answer = "yes cost 2000 bound 2000\n";
    assert!(rt; answers::<Cables>(rt.alloc(), &["check"], SET, 0, answer)?);
    Ok(())
}

#[test]
fn changed_sets_are_refused(rt: HostRuntime) -> Result<(), AllocError> {
    assert_eq!(rt; wrong_refusal::<Cables>(rt.alloc(), SET, &CHANGES)?, None);
    Ok(())
}

/// The first lines of a text, so many.
fn first_lines(alloc: Global, text: &str, count: usize) -> Result<String, AllocError> {
    let mut lines = String::new(alloc);
    for line in text.lines().take(count) {
        lines.push_str(line)?;
        lines.push_str("\n")?;
    }
    Ok(lines)
}

#[test]
fn a_document_has_all_its_lines(rt: HostRuntime) -> Result<(), AllocError> {
    let alloc = rt.alloc();
    for count in 0..25u8 {
        let lines = first_lines(alloc, SET, usize::from(count))?;
        assert!(rt; misses_line(alloc, lines.as_bytes())?, "{count}");
    }
    Ok(())
}

#[test]
fn a_missing_line_that_is_not_noted_is_a_write_fault(rt: HostRuntime) -> Result<(), AllocError> {
    let alloc = rt.alloc();
    let lines = first_lines(alloc, SET, 24)?;
    let untold = ran_with::<Cables>(alloc, &["check"], lines.as_bytes(), &[], &[], &[1])?;
    assert_eq!(rt; untold.status, 8);
    assert!(rt; untold.out.is_empty());
    Ok(())
}

#[test]
fn a_set_that_is_not_read_to_its_end_is_a_read_fault(rt: HostRuntime) -> Result<(), AllocError> {
    let alloc = rt.alloc();
    for pull in 1..=(SET.len() / 16) as u64 {
        let check = ran_with::<Cables>(alloc, &["check"], SET.as_bytes(), &[pull], &[], &[])?;
        assert_eq!(rt; check.status, 7, "{pull}");
        assert!(rt; check.out.is_empty(), "{pull}");
    }
    Ok(())
}
