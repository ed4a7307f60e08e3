//! Plans that are cut, sites that differ in a byte, and many rows.

use crate::cables::Cables;
use crate::reports::BENT;
use run_support::{DOCUMENT, FIRST, cause_of, ran_with, run_on, wrong_refusal};
use std::alloc::{AllocError, Global};

/// Whether a check refuses these first bytes of a document at the line that they end in.
pub(crate) fn misses_line(alloc: Global, bytes: &[u8]) -> Result<bool, AllocError> {
    let line = bytes.iter().filter(|byte| **byte == b'\n').count();
    let note = format!(in alloc; "document refused: Line at line {}\n", line as u64 + 1)?;
    let check = ran_with::<Cables>(alloc, &["check"], bytes, &[], &[], &[])?;
    Ok(check.status == 6 && check.out.is_empty() && check.note.as_slice() == note.as_bytes())
}

/// How many of the fronts of a plan, from none of its bytes to all but the last, are refused at the line that they end in.
fn refused_fronts(alloc: Global, plan: &[u8]) -> Result<usize, AllocError> {
    let mut refused = 0usize;
    for end in 0..plan.len() {
        if misses_line(alloc, &plan[..end])? {
            refused = refused.saturating_add(1);
        }
    }
    Ok(refused)
}

#[test]
fn a_plan_that_is_cut_at_any_byte_is_refused_there(rt: HostRuntime) -> Result<(), AllocError> {
    let alloc = rt.alloc();
    let plan = run_on::<Cables>(alloc, &["plan", "1023"], BENT)?;
    assert_eq!(rt; plan.status, 0);
    let refused = refused_fronts(alloc, plan.out.as_slice())?;
    assert_eq!(rt; refused, plan.out.len());
    Ok(())
}

/// What stands in the site of the document, what is put in its place with one byte changed, and how the cause and the line are noted.
const BYTES: [(&str, &str, &str); 10] = [
    ("site 1", "site 3", "Site at line 1"),
    ("mode tree", "mode trex", "Site at line 2"),
    ("mode tree", "mode\ttree", "Site at line 2"),
    ("type 400 100", "type 400 101", "Layout at line 17"),
    ("type 400 100", "type 000 100", "Site at line 3"),
    ("substation S", "substation T", "Layout at line 16"),
    ("0 0 4 10000", "0 0 0 10000", "Full at line 12"),
    ("A 300 400", "A 301 400", "Layout at line 17"),
    ("turbine A", "turbine B", "Layout at line 16"),
    ("end site", "end sitf", "Site at line 6"),
];

#[test]
fn a_document_of_another_site_is_refused(rt: HostRuntime) -> Result<(), AllocError> {
    let wrong = wrong_refusal::<Cables>(rt.alloc(), DOCUMENT, &BYTES)?;
    assert_eq!(rt; wrong, None);
    Ok(())
}

/// The lines of a document with so many rows, before its first work.
fn rows(alloc: Global, count: u32) -> Result<Vec<u8>, AllocError> {
    let mut text = Vec::from_slice(alloc, FIRST.as_bytes())?;
    text.extend_from_slice(b"budget 10\n")?;
    for _ in 0..count {
        text.extend_from_slice(b"row out 1\n")?;
    }
    Ok(text)
}

#[test]
fn a_document_has_at_most_16384_rows(rt: HostRuntime) -> Result<(), AllocError> {
    let alloc = rt.alloc();
    let most = rows(alloc, 16_384)?;
    let check = ran_with::<Cables>(alloc, &["check"], most.as_slice(), &[], &[], &[])?;
    assert!(rt; cause_of(check.note.as_slice()) == Some(b"Line at line 16392".as_slice()));
    let more = rows(alloc, 16_385)?;
    let check = ran_with::<Cables>(alloc, &["check"], more.as_slice(), &[], &[], &[])?;
    assert_eq!(rt; check.status, 6);
    assert!(rt; cause_of(check.note.as_slice()) == Some(b"Limit at line 16392".as_slice()));
    Ok(())
}
