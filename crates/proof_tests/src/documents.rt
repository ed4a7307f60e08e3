//! Documents as texts, accepted or refused with a cause and a line.

use cable_definitions::claim::{Cause, Claim, Refusal};
use cable_text::{Lines, MemorySource};
use document_check::{DocumentFault, read_document};
use site_text::read_site;
use std::alloc::Global;
use std::test::Fail;

/// A substation and one turbine, in six lines.
const SITE: &[u8] =
    b"site 1\nmode tree\ntype 400 100\nsubstation S 0 0 4 10000\nturbine A 300 400 100\nend site\n";

/// The text of the site and of an accepted document, in which this line stands in place of one of its
/// own.
fn text_with(alloc: Global, number: usize, line: &[u8]) -> Result<Vec<u8>, Fail> {
    let own = [
        b"budget 8191\n".as_slice(),
        b"row out 1\n".as_slice(),
        b"work 1 0\n".as_slice(),
        b"split 0\n".as_slice(),
        b"work 2 0\n".as_slice(),
        b"full\n".as_slice(),
        b"work 3 0\n".as_slice(),
        b"dead row 0\n".as_slice(),
        b"layout 1\n".as_slice(),
        b"cable A S 0\n".as_slice(),
        b"optimal 50000\n".as_slice(),
        b"end document\n".as_slice(),
    ];
    let mut text = Vec::from_slice(alloc, SITE)?;
    for (index, old) in own.iter().enumerate() {
        if index + 7 == number {
            text.extend_from_slice(line)?;
        } else {
            text.extend_from_slice(old)?;
        }
    }
    Ok(text)
}

/// The claim of a text that is accepted, or its fault, from a source of which these calls fail.
fn answer(
    alloc: Global,
    text: Vec<u8>,
    fails: Vec<u64>,
) -> Result<Result<Claim, DocumentFault>, Fail> {
    let mut source = MemorySource::new(text, 7, fails);
    let mut lines = Lines::new(alloc)?;
    let site = read_site(alloc, &mut lines, &mut source)?;
    match read_document(alloc, &site, &mut lines, &mut source) {
        Ok(accepted) => Ok(Ok(accepted.claim)),
        Err(fault) => Ok(Err(fault)),
    }
}

#[test]
fn a_true_document_is_accepted(rt: HostRuntime) -> Result<(), Fail> {
    let alloc = rt.alloc();
    let given = answer(alloc, text_with(alloc, 0, b"")?, Vec::new(alloc))?;
    assert_eq!(rt; given, Ok(Claim::Optimal(50000)));
    Ok(())
}

#[test]
fn the_first_cause_is_named_with_its_line(rt: HostRuntime) -> Result<(), Fail> {
    let alloc = rt.alloc();
    for (number, line, at, cause) in [
        (7, b"budget 0\n".as_slice(), 7u64, Cause::Limit),
        (8, b"row out 0\n".as_slice(), 8, Cause::Row),
        (9, b"work 4 0\n".as_slice(), 10, Cause::Node),
        (9, b"".as_slice(), 9, Cause::Form),
        (10, b"split 1\n".as_slice(), 10, Cause::Arc),
        (14, b"dead row 1\n".as_slice(), 14, Cause::Dead),
        (16, b"cable A T 0\n".as_slice(), 16, Cause::Layout),
        (16, b"cable S A 0\n".as_slice(), 17, Cause::Layout),
        (17, b"optimal 49999\n".as_slice(), 17, Cause::Layout),
        (17, b"gap 50000 40000\n".as_slice(), 17, Cause::Verdict),
        (18, b"".as_slice(), 18, Cause::Line),
        (
            18,
            b"end document\nend document\n".as_slice(),
            19,
            Cause::Form,
        ),
    ] {
        let given = answer(alloc, text_with(alloc, number, line)?, Vec::new(alloc))?;
        let refusal = Refusal { line: at, cause };
        assert_eq!(rt;
            given,
            Err(DocumentFault::Refused(refusal)),
            "with another line {number}"
        );
    }
    Ok(())
}

#[test]
fn a_source_that_fails_is_not_the_document_s_fault(rt: HostRuntime) -> Result<(), Fail> {
    let alloc = rt.alloc();
    for call in [15u64, 20, 30] {
        let fails = Vec::from_slice(alloc, &[call])?;
        let given = answer(alloc, text_with(alloc, 0, b"")?, fails)?;
        assert_eq!(rt; given, Err(DocumentFault::Read));
    }
    Ok(())
}
