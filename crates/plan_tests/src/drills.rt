//! Drills, and plans over several lanes, which are the same each time.

use crate::cables::Cables;
use cable_text::{MemorySink, Sink};
use drill_site::drill_site;
use run_support::{FORK, run_long, run_on};
use site_text::write_site;
use std::alloc::{AllocError, Global};

/// Whether the summary of the drill 7 with 30 turbines and a budget of 100 tells this verdict.
fn tells(summary: &[u8], verdict: &[u8]) -> bool {
    match summary.strip_suffix(b"\n".as_slice()) {
        Some(line) => line.starts_with(b"drill 7 30 100 arcs ") && line.ends_with(verdict),
        None => false,
    }
}

/// The verdict of a document, without its newline.
fn verdict_of(document: &[u8]) -> Option<&[u8]> {
    let lines = document.strip_suffix(b"\nend document\n".as_slice())?;
    let last = lines.iter().rposition(|byte| *byte == b'\n')?;
    lines.get(last..)?.strip_prefix(b"\n".as_slice())
}

/// The lines of the site of the drill 7 with 30 turbines.
fn generated_lines(alloc: Global) -> Result<Vec<u8>, AllocError> {
    let site = drill_site(alloc, 7, 30)?;
    let mut lines = MemorySink::new(alloc, 1 << 14, Vec::new(alloc))?;
    let _ = write_site(&site, &mut lines);
    Vec::from_slice(alloc, lines.taken())
}

#[test]
fn a_plan_over_four_lanes_is_the_same_each_time(rt: HostRuntime) -> Result<(), AllocError> {
    let alloc = rt.alloc();
    let first = run_on::<Cables>(alloc, &["plan", "1023", "4"], FORK)?;
    let second = run_on::<Cables>(alloc, &["plan", "1023", "4"], FORK)?;
    assert_eq!(rt; first.status, 0);
    assert!(rt; first.out.ends_with(b"optimal 2000\nend document\n"));
    assert!(rt; first.out.as_slice() == second.out.as_slice());
    Ok(())
}

#[test]
fn one_lane_may_be_said(rt: HostRuntime) -> Result<(), AllocError> {
    let alloc = rt.alloc();
    let said = run_on::<Cables>(alloc, &["plan", "1023", "1"], FORK)?;
    let unsaid = run_on::<Cables>(alloc, &["plan", "1023"], FORK)?;
    assert_eq!(rt; said.status, 0);
    assert!(rt; said.out.as_slice() == unsaid.out.as_slice());
    Ok(())
}

#[test]
fn a_drill_is_the_same_each_time(rt: HostRuntime) -> Result<(), AllocError> {
    let alloc = rt.alloc();
    let first = run_on::<Cables>(alloc, &["drill", "1000000000", "3", "5"], "")?;
    let second = run_on::<Cables>(alloc, &["drill", "1000000000", "3", "5"], FORK)?;
    assert!(rt; first.out.starts_with(b"drill 1000000000 3 5 arcs "));
    assert!(rt; first.note.is_empty());
    assert_eq!(rt; first.status, second.status);
    assert!(rt; first.out.as_slice() == second.out.as_slice());
    Ok(())
}

#[test]
fn a_drill_tells_the_verdict_of_the_plan(rt: HostRuntime) -> Result<(), AllocError> {
    let alloc = rt.alloc();
    let summary = run_on::<Cables>(alloc, &["drill", "7", "30", "100"], "")?;
    let lines = generated_lines(alloc)?;
    let plan = run_long::<Cables>(alloc, &["plan", "100"], lines.as_slice())?;
    assert_eq!(rt; summary.status, plan.status);
    match verdict_of(plan.out.as_slice()) {
        Some(verdict) => assert!(rt; tells(summary.out.as_slice(), verdict)),
        None => assert!(rt; false, "the plan has no verdict"),
    }
    let check = run_long::<Cables>(alloc, &["check"], plan.out.as_slice())?;
    assert_eq!(rt; check.status, 0);
    Ok(())
}
